//! A guest's memory: its regions, and an IOMMU's table, if there is one.

ghost use Rattle.std.specs.Prelude.{◌≡◌, ◌+◌, ◌<◌, ◌^◌, List, [], ◌∷◌, IfSome, None, Some, MatchOption};
ghost use Rattle.std.specs.Prelude.{is_some, min};
ghost use Rattle.std.specs.List.{list_all};
ghost use Rattle.vm_iotlb.specs.AddressRuns.{missing};
ghost use Rattle.vm_iotlb.specs.Ranges.{table_held};
ghost use Rattle.vm_iotlb.specs.declared.iova.IovaRange.{IovaRange};
ghost use Rattle.vm_iotlb.specs.declared.permissions.Permissions.{Permissions};
ghost use Rattle.vm_iotlb.specs.declared.range.IotlbRange.{IotlbRange};
ghost use Rattle.vm_memory.specs.Memory.{addresses, location, reach};
ghost use Rattle.vm_memory.specs.Slices.{IsWindowAt};
ghost use Rattle.vm_memory.specs.Translated.{translated, translated_left};
ghost use Rattle.fs_regions.specs.Windows.{HavePlaces, LiesApart, LiesAt};
ghost use Rattle.fs_regions.specs.Places.{behind, left_in, own_table, places_in, untranslated, with_table};

use crate::regions::GuestRegions;
use fs_queue::AddressMap;
use std::alloc::Global;
use std::marker::Model;
use std::mem;
use vm_memory_core::{GuestAddress, Iotlb, IovaRange, Permissions, VolatileSlice};

/// A guest's memory: its regions, and an IOMMU's table, if there is one. The table translates the device's
/// addresses to addresses of the regions. Without a table the device uses the regions' own. While its table
/// is taken away, none of the device's addresses is mapped.
#[derive(Drop)]
pub struct GuestMap {
    regions: GuestRegions,
    table: Option<Iotlb>,
    /// Whether the table was taken away: then `table` is one that maps nothing.
    away: bool,
}

impl Model for GuestMap {
    ghost use Rattle.fs_regions.specs.Places.{Mapped};

    ghost Value = { Mapped };

    ghost view = { λ m. record { layout = m.regions; table = m.table; away = m.away } };
}

// Whether a table maps each of `len` addresses from one on into a region, for an access.
fn reaches_by(
    regions: &GuestRegions,
    table: &Iotlb,
    addr: u64,
    len: usize,
    access: Permissions,
) -> bool
    requires { addr + len < 2 ^ 64 }
    ensures { result ≡ list_all (λ a. is_some (translated regions.now (table_held table.now) 0 access a))
        (addresses addr len) }
{
    let end = addr + len as u64;
    let mut next = addr;
    'pieces: while next < end {
        let Some(piece) = table.piece_at(GuestAddress(next), (end - next) as usize, access) else {
            return false;
        };
        if !regions.reaches(piece.base.0, piece.length) {
            return false;
        }
        next += piece.length as u64;
    }
    true
}

// Whether a table maps each of `len` addresses from one on into a region, for an access, and their end is an
// address. It is a function of its own so that a memory without a table pays only a test in `reaches`.
#[cold]
#[inline(never)]
fn reaches_behind(
    regions: &GuestRegions,
    table: &Iotlb,
    addr: u64,
    len: usize,
    access: Permissions,
) -> bool
    ensures { result ≡ reach (places_in (behind regions.now table.now)) access addr len }
{
    len as u64 <= u64::MAX - addr && reaches_by(regions, table, addr, len, access)
}

// The longest window of at most `most` bytes from an address on, through a table, for an access. None if the
// table doesn't map the address into a region for that access.
#[cold]
#[inline(never)]
fn window_by(
    regions: &GuestRegions,
    table: &Iotlb,
    addr: u64,
    most: usize,
    access: Permissions,
) -> Option<VolatileSlice>
    requires { 0 < most }
    ensures none { result ≡ None → translated regions.now (table_held table.now) 0 access addr ≡ None }
    ensures some { IfSome result
        (IsWindowAt (translated regions.now (table_held table.now) 0 access) addr most) }
    ensures longest { IfSome result
        (λ w. w.len ≡ min most (translated_left regions.now (table_held table.now) addr)) }
{
    let Some(piece) = table.piece_at(GuestAddress(addr), most, access) else {
        return None;
    };
    match regions.window_at(piece.base.0, piece.length) {
        Some(window) => Some(window.replace_bitmap(0, addr)),
        None => None,
    }
}

// The place of `len` addresses from one on, through a table, for an access, if they are mapped as one and lie
// in one region.
#[inline(always)]
fn place_by(
    regions: &GuestRegions,
    table: &Iotlb,
    addr: u64,
    len: usize,
    access: Permissions,
) -> Option<usize>
    requires { 0 < len }
    ensures { IfSome result (LiesAt (translated regions.now (table_held table.now) 0 access) addr len
        (translated_left regions.now (table_held table.now) addr)) }
{
    let Some(piece) = table.piece_at(GuestAddress(addr), len, access) else {
        return None;
    };
    if piece.length != len {
        return None;
    }
    regions.place_at(piece.base.0, len)
}

// How many addresses from one on a table maps as one, for an access. None if it doesn't map the first, or one
// of them leads to no region.
#[inline(always)]
fn piece_by(regions: &GuestRegions, table: &Iotlb, addr: u64, access: Permissions) -> Option<usize>
    ensures { IfSome result (HavePlaces (translated regions.now (table_held table.now) 0 access) addr) }
{
    let Some(piece) = table.piece_at(GuestAddress(addr), usize::MAX, access) else {
        return None;
    };
    if !regions.reaches(piece.base.0, piece.length) {
        return None;
    }
    Some(piece.length)
}

impl GuestMap {
    /// No memory.
    pub fn none(alloc: Global) -> GuestMap
        ensures { result ≡ untranslated [] }
    {
        GuestMap {
            regions: GuestRegions::none(alloc),
            table: None,
            away: false,
        }
    }

    /// Regions without a table.
    pub fn of_regions(regions: GuestRegions) -> GuestMap
        ensures { result ≡ untranslated regions }
    {
        GuestMap {
            regions,
            table: None,
            away: false,
        }
    }

    /// Regions behind a table.
    pub fn behind(regions: GuestRegions, table: Iotlb) -> GuestMap
        ensures { result ≡ behind regions table }
    {
        GuestMap {
            regions,
            table: Some(table),
            away: false,
        }
    }

    // Takes the table away, if there is one, and returns what was in its place.
    fn take_table(&mut self, alloc: Global) -> Option<Iotlb>
        ensures old { result ≡ self.old.table }
        ensures new { self.new ≡ with_table self.old None }
    {
        match &mut self.table {
            Some(table) => {
                self.away = true;
                Some(mem::replace(table, Iotlb::new(alloc)))
            }
            None => {
                self.away = false;
                None
            }
        }
    }

    // Puts a table in its place, and returns what was there.
    fn put_table(&mut self, table: Iotlb) -> Option<Iotlb>
        ensures old { result ≡ self.old.table }
        ensures new { self.new ≡ with_table self.old (Some table) }
    {
        self.away = false;
        mem::replace(&mut self.table, Some(table))
    }

    /// Exchanges the table for another one, or for none, and returns the one that was there. Memory that had
    /// a table maps none of the device's addresses while the table is taken away.
    pub fn exchange_table(&mut self, alloc: Global, table: Option<Iotlb>) -> Option<Iotlb>
        ensures old { result ≡ own_table self.old }
        ensures new { self.new ≡ with_table self.old table }
    {
        let was_away = self.away;
        let old = match table {
            Some(table) => self.put_table(table),
            None => self.take_table(alloc),
        };
        if was_away { None } else { old }
    }

    /// Whether the device's addresses are translated: there is a table, or it was taken away.
    #[inline(always)]
    pub fn translates(&self) -> bool
        ensures { result ≡ (places_in self.now).translates }
    {
        self.table.is_some()
    }

    /// Whether each of `len` addresses from one on is mapped for an access, and their end is an address.
    #[inline(always)]
    pub fn reaches(&self, addr: u64, len: usize, access: Permissions) -> bool
        ensures { result ≡ reach (places_in self.now) access addr len }
    {
        match &self.table {
            None => self.regions.reaches(addr, len),
            Some(table) => reaches_behind(&self.regions, table, addr, len, access),
        }
    }

    /// How many addresses from one on a table maps as one, for an access. None without a table, if it doesn't
    /// map the first, or if one of them leads to no region.
    #[inline(always)]
    pub(crate) fn piece_len(&self, addr: u64, access: Permissions) -> Option<usize>
        ensures { IfSome result (HavePlaces (location (places_in self.now) access) addr) }
    {
        match &self.table {
            None => None,
            Some(table) => piece_by(&self.regions, table, addr, access),
        }
    }

    /// The longest window of at most `most` bytes from an address on, for an access. Its block is the number
    /// of its region. None if the address isn't mapped for that access.
    #[inline(always)]
    pub fn window_at(&self, addr: u64, most: usize, access: Permissions) -> Option<VolatileSlice>
        requires { 0 < most }
        ensures none { result ≡ None → location (places_in self.now) access addr ≡ None }
        ensures some { IfSome result (IsWindowAt (location (places_in self.now) access) addr most) }
        ensures longest { IfSome result (λ w. w.len ≡ min most (left_in (places_in self.now) addr)) }
    {
        match &self.table {
            None => self.regions.window_at(addr, most),
            Some(table) => window_by(&self.regions, table, addr, most, access),
        }
    }

    // The place of `len` addresses from one on, if there is no table and they lie in one region.
    #[inline(always)]
    fn place_in_region(&self, addr: u64, len: usize, access: Permissions) -> Option<usize>
        requires { 0 < len }
        ensures { IfSome result
            (LiesAt (location (places_in self.now) access) addr len (left_in (places_in self.now) addr)) }
    {
        match &self.table {
            None => self.regions.place_at(addr, len),
            Some(_) => None,
        }
    }

    // The place of `len` addresses from one on, if a table maps them as one, and they lie in one region.
    #[inline(always)]
    fn place_behind(&self, addr: u64, len: usize, access: Permissions) -> Option<usize>
        requires { 0 < len }
        ensures { IfSome result
            (LiesAt (location (places_in self.now) access) addr len (left_in (places_in self.now) addr)) }
    {
        match &self.table {
            None => None,
            Some(table) => place_by(&self.regions, table, addr, len, access),
        }
    }

    // The place of `len` addresses from one on, by the longest window there.
    #[inline(never)]
    fn place_of_window(&self, addr: u64, len: usize, access: Permissions) -> Option<usize>
        requires { 0 < len }
        ensures some { IfSome result
            (LiesAt (location (places_in self.now) access) addr len (left_in (places_in self.now) addr)) }
        ensures none { result ≡ None
            → LiesApart (location (places_in self.now) access) addr len (left_in (places_in self.now) addr) }
    {
        match self.window_at(addr, len, access) {
            Some(window) => {
                if window.len() == len {
                    Some(window.block().wrapping_add(window.block_offset()))
                } else {
                    None
                }
            }
            None => None,
        }
    }

    // The place of `len` addresses from one on, if it isn't found without a table. It is a function of its
    // own so that a memory without a table doesn't make the window.
    #[cold]
    #[inline(never)]
    fn place_elsewhere(&self, addr: u64, len: usize, access: Permissions) -> Option<usize>
        requires { 0 < len }
        ensures some { IfSome result
            (LiesAt (location (places_in self.now) access) addr len (left_in (places_in self.now) addr)) }
        ensures none { result ≡ None
            → LiesApart (location (places_in self.now) access) addr len (left_in (places_in self.now) addr) }
    {
        match self.place_behind(addr, len, access) {
            Some(at) => Some(at),
            None => self.place_of_window(addr, len, access),
        }
    }

    /// The place of `len` addresses from one on: the number of the block, and the offset there, added. None
    /// if they aren't mapped for an access in one piece.
    #[inline(always)]
    pub fn place_at(&self, addr: u64, len: usize, access: Permissions) -> Option<usize>
        requires { 0 < len }
        ensures some { IfSome result
            (LiesAt (location (places_in self.now) access) addr len (left_in (places_in self.now) addr)) }
        ensures none { result ≡ None
            → LiesApart (location (places_in self.now) access) addr len (left_in (places_in self.now) addr) }
    {
        match self.place_in_region(addr, len, access) {
            Some(at) => Some(at),
            None => self.place_elsewhere(addr, len, access),
        }
    }

    /// The first of `len` addresses that the table doesn't map, with the unmapped ones right after it. None
    /// if the table maps each of them, with any permission, or if there is no table.
    pub fn first_miss(&self, addr: u64, len: usize) -> Option<IovaRange>
        requires { addr + len < 2 ^ 64 }
        ensures none { self.now.table ≡ None → result ≡ None }
        ensures first { (ranges : List IotlbRange)
            → self.now.table ≡ Some ranges
            → MatchOption result (missing (table_held ranges) addr len ≡ [])
            (λ r. (rest : List IovaRange) × (missing (table_held ranges) addr len ≡ r ∷ rest)) }
    {
        match &self.table {
            None => None,
            Some(table) => table.first_miss(GuestAddress(addr), len),
        }
    }
}

impl AddressMap for GuestMap {
    ghost places = { λ m. places_in m };

    fn has_places(&self, addr: u64, len: usize, access: Permissions) -> bool {
        self.reaches(addr, len, access)
    }
}
