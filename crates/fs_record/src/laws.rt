//! Theorems about the definitions, each the contract of a function that does nothing.

ghost use Rattle.fs_record.specs.Laws.{OneReading, OneSpelling};

/// Queues and options have one record in each version. Bytes are the record of one version, of one list
/// of queues and options and, in version 2, of one page size and limit. Any bytes may follow them.
pub fn law_record()
    ensures reading { OneReading }
    ensures spelling { OneSpelling }
{}
