//! The pairs of BATCH_FORGET.

ghost use Rattle.std.specs.Prelude.{◌≡◌, ◌≤◌, Ok, Err, IfOk, IfErr, false};
ghost use Rattle.fuse_fs.specs.Answers.{pair_numbers};
ghost use Rattle.server_segments.specs.Errors.{is_memory};
ghost use Rattle.server_requests.specs.Reading.{Faults, many};
ghost use Rattle.server_requests.specs.Fronts.{forget_pair, has_pairs};

use crate::records::read_record;
use fuse_fs::FileNumber;
use fuse_wire::ForgetOne;
use server_segments::{Error, Reader};
use std::alloc::Global;

/// The length in bytes of `struct fuse_forget_one`.
pub(crate) const FORGET_ONE_LEN: usize = 16;

/// The number of pairs of a BATCH_FORGET: at most 65,536, which are 2^20 bytes.
#[derive(Clone, Copy)]
pub struct PairCount {
    /// The number.
    pub count: u32,
    ghost few: { count ≤ 65536 },
}

/// The next `count` pairs of a node and the number to subtract from its lookup count (`struct
/// fuse_forget_one`, 16 bytes each). Errors, in this order:
/// - `DecodeMessage`: the reader has fewer bytes
/// - `OutOfMemory`: the allocation for all pairs failed
pub fn read_pairs<I: FileNumber>(
    alloc: Global,
    r: &mut Reader<'_>,
    count: u32,
) -> Result<Vec<(I, u64)>, Error>
    ensures ok { IfOk result
        (λ pairs. Ok (pair_numbers I.number pairs.items, r.new.left) ≡ many count forget_pair r.old.left) }
    ensures err { IfErr result (λ e. is_memory e ≡ false
        → Err (Faults e) ≡ many count forget_pair r.old.left) }
    ensures memory { has_pairs (many count forget_pair r.old.left) ≡ false
        → IfErr result (λ e. is_memory e ≡ false) }
{
    if r.available_bytes() < count as usize * FORGET_ONE_LEN {
        return Err(Error::DecodeMessage);
    }
    let Ok(mut pairs) = Vec::with_capacity(alloc, count as usize) else {
        return Err(Error::OutOfMemory);
    };
    for _ in 0..count {
        match read_record::<ForgetOne>(r) {
            Ok(one) => pairs.push((I::numbered(one.nodeid), one.nlookup)).unwrap(),
            Err(error) => return Err(error),
        }
    }
    Ok(pairs)
}
