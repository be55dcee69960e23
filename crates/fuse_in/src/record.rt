//! The trait of the records that the server reads from requests.

ghost use Rattle.std.specs.Prelude.{◌≡◌};
ghost use Rattle.fuse_in.specs.Shapes.{RecordShape, fields_by, made_of, size};

use vm_values::ByteValued;

/// A record that the server reads from a request (`struct fuse_*_in` of linux/fuse.h). Its shape says how.
pub trait InRecord: ByteValued {
    // The record's parts, how to make it from their values, and the values of a record.
    ghost shape: { RecordShape Self };

    // The parts give the record's fields, its values make the record again, and the parts' sizes
    // add up to its size.
    ghost of_shape: { ((x : Self) → fields_by shape x ≡ Self.fields x)
        × ((x : Self) → made_of shape.parts shape.make (shape.shows x) ≡ x)
        × (size shape.parts ≡ Self.SIZE) };
}
