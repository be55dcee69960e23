//! The results of a handle's calls are steps of the device in the model of notifications (crate `notify`).
//! So no notification of this library's queues is lost between resets and moves. Each theorem is the contract
//! of a function that does nothing.
//!
//! The model's steps are those of the device's threads (`ThreadStep`), and of a giver of used chains
//! (`NotifyStep`):
//!
//! | Call | Step |
//! |---|---|
//! | `notification_store(true)`, its store, the barrier | `Wishes`, `WishIsThere` |
//! | `notification_store(false)`, its store | `Silences` |
//! | `pop`: the load of the available index; a chain | `Loads`, `TakesOne` |
//! | `pop` behind the barrier: no chain, or as many in flight as may be | `SleepsNow` |
//! | `give_up` | `DropsOne` |
//! | `push`: its last store, that of the used index | `Publishes`, `ReturnsChains` |
//! | `pushed`, with a load behind the barrier | `ChecksWish` |
//!
//! The lock is held from `push` to `pushed`, so no step of another thread comes between.
#![tactic(auto)]

ghost use Rattle.fs_notify.specs.Givers.{ChecksBySeen, MachineChecks, PublishesByStore, ReturnsInOrder};
ghost use Rattle.fs_notify.specs.Takers.{RearmsByStore, DropIsAnAct, FindsNoneByPop, FullIsAnAct};
ghost use Rattle.fs_notify.specs.Takers.{MutesByStore, ReturnIsAnAct, SleepsInOrder, TakesByPop};

/// The acts of a thread that holds the queue's lock: a call's result allows the act, and the call makes
/// it. Of a pop that is the call that ends it, by what `pop` ensures of that call (`EndsBy` in `fs_chain`).
/// A wish and a later pop that finds no chain, in this order, are a run of the model after which the
/// thread sleeps.
pub fn law_takers()
    ensures rearms { RearmsByStore }
    ensures mutes { MutesByStore }
    ensures takes { TakesByPop }
    ensures none { FindsNoneByPop }
    ensures full { FullIsAnAct }
    ensures drops { DropIsAnAct }
    ensures returns { ReturnIsAnAct }
    ensures order { SleepsInOrder }
{}

/// The steps of a device that returns used chains to the driver: by the handle, and by the plain
/// machine. The store of the used index, the barrier and the load, in this order, are a run of the
/// model.
pub fn law_givers()
    ensures publishes { PublishesByStore }
    ensures checks { ChecksBySeen }
    ensures order { ReturnsInOrder }
    ensures machine { MachineChecks }
{}
