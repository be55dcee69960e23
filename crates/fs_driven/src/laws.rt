//! Theorems about the definitions, as contracts of functions that do nothing.

ghost use Rattle.fs_driven.specs.Drivers.{BeginsDriven};
ghost use Rattle.fs_driven.specs.Served.{DriverServes, EachIsServed, IdleFindsNone};

use fuse_fs::FileSystem;

/// The calls of a driver (`drive_all`) may begin with free handles over a run's memory, while no chain is in
/// flight.
pub fn law_driven()
    ensures { BeginsDriven }
{}

/// Each available chain is served. Of the pops of a queue that end in a run, as many as find a chain are
/// pushed, given up, or still in flight: of those of a driver's calls (`drive_all`) by what the calls
/// returned. A pop finds no chain only if it loaded an available index by which none is available. That each
/// pop ends is ensured by `ChainHandle::pop` (`few`).
pub fn law_served<F: FileSystem>()
    ensures each { EachIsServed F.may }
    ensures idle { IdleFindsNone F.may }
    ensures driver { DriverServes }
{}
