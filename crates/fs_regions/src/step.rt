//! The steps of a pop over regions.

use crate::walk::QueueWalk;
use fs_queue::{ChainFault, QueueError};
use vm_memory_core::{IovaRange, Permissions};

/// A step of a pop.
#[derive(Debug, Drop)]
pub enum CourseStep {
    /// The pop asks for this load.
    Load(QueueWalk),
    /// No chain is available.
    Idle,
    /// The queue refuses the pop.
    Refused(QueueError),
    /// The chain of this head, or its fault. The list has the descriptors that the walk gathered.
    Chain(u16, Option<ChainFault>),
    /// The pop needs these addresses for this access, and the table doesn't map them. Nothing was popped. The
    /// list has the descriptors that the walk gathered.
    Missing(IovaRange, Permissions),
}
