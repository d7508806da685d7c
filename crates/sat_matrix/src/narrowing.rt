//! The search of adjacent pairs among many rays, by lists of near rays that narrow with groups.
ghost use Rattle.std.specs.Prelude.{◌≡◌, ◌+◌, ◌<◌, ◌≤◌, [], IsTrue, length, take, IfOk, OnOk};
ghost use Rattle.std.specs.List.{range_with_len};
ghost use Rattle.sat_matrix.specs.Near.{IsNear};
ghost use Rattle.sat_matrix.specs.Levels.{HasAll};
ghost use Rattle.sat_matrix.specs.SearchStates.{IsReady, HasFound, AreNear};
ghost use Rattle.sat_matrix.specs.NearStates.{AreKept, IsBegun};

use crate::adjacency::{Pairs, Search};
use crate::looks::has_crowded;
use crate::ranking::{NearRay, is_adjacent_near};
use crate::searches::{count_places, push_sharing, unite};
use std::alloc::{AllocError, Global};

/// Into so many parts a group of outer rays is taken apart at most.
const PARTS: usize = 4;

/// Where the inner rays aren't so many times the outer ones, all of these aren't taken first.
const LOCAL_TIMES: usize = 8;

/// Room is made at once for so many lists of rays: of all, of those near to a group, to its parts.
const LISTS: usize = 3;

/// Where the lists of one group begin, behind those of the groups that it is a part of.
#[derive(Clone, Copy)]
pub(crate) struct Level {
    inner: usize,
    rays: usize,
    /// Whether the rays near to the group are listed too: among these third rays are looked for.
    whole: bool,
}

impl Level {
    // Whether third rays for a part of the group are looked for among near rays.
    fn is_whole_at(self, search: &Search, from: usize, to: usize) -> bool
        requires search { IsReady search.now }
        requires to { to ≤ length search.now.outer.now }
        ensures { IsTrue result → IsTrue self.whole }
    {
        self.whole && has_crowded(search.zeros, search.outer, from, to, search.least)
    }
}

/// The rays that share enough zeros with a group of outer rays together.
#[derive(Drop)]
pub(crate) struct Near {
    /// The positions on the inner side of those that are there.
    inner: Vec<usize>,
    /// All of them, where they are listed.
    rays: Vec<usize>,
    /// The rays of the table.
    all: Vec<usize>,
    /// The words of the zeros of a group.
    union: Vec<u64>,
    /// Those near to one ray, in order.
    ranked: Vec<NearRay>,
}

impl Near {
    /// Returns empty lists.
    pub(crate) fn new(alloc: Global) -> Near {
        Near {
            inner: Vec::new(alloc),
            rays: Vec::new(alloc),
            all: Vec::new(alloc),
            union: Vec::new(alloc),
            ranked: Vec::new(alloc),
        }
    }

    // Lists all rays as near to the outer rays.
    fn begin(&mut self, search: &Search) -> Result<Level, AllocError>
        requires { IsReady search.now }
        ensures all { IfOk result (λ level. HasAll search.now.zeros.now level self.new.all.items) }
        ensures near { let rays = length search.now.outer.now in
            IfOk result (λ level.
            AreNear search.now 0 rays level self.new.inner.items self.new.rays.items) }
    {
        let whole = search.needs_thirds();
        let rays = if whole { search.zeros.len() } else { 0 };
        list_numbers(&mut self.inner, search.inner.len(), LISTS)?;
        list_numbers(&mut self.all, rays, 1)?;
        list_numbers(&mut self.rays, rays, LISTS)?;
        Ok(Level {
            inner: 0,
            rays: 0,
            whole,
        })
    }

    // Lists the rays near to a group behind those near to one that it is a part of.
    fn narrow(
        &mut self,
        search: &Search,
        from: usize,
        to: usize,
        level: Level,
    ) -> Result<Level, AllocError>
        requires search { IsReady search.now }
        requires to { (from ≤ to) × (to ≤ length search.now.outer.now) }
        requires all { HasAll search.now.zeros.now level self.old.all.items }
        requires near { AreNear search.now from to level self.old.inner.items self.old.rays.items }
        ensures begun { IfOk result (λ next. IsBegun next self.old self.new) }
        ensures listed { IfOk result (λ next. HasAll search.now.zeros.now next self.new.all.items) }
        ensures near { IfOk result (λ next.
            AreNear search.now from to next self.new.inner.items self.new.rays.items) }
    {
        let least = search.least;
        let next = Level {
            inner: self.inner.len(),
            rays: self.rays.len(),
            whole: level.is_whole_at(search, from, to),
        };
        let rows = search.zeros.words();
        unite(rows, search.outer, from, to, &mut self.union)?;
        let (union, inner, rays) = (&self.union, &mut self.inner, &mut self.rays);
        push_sharing(rows, union, search.inner, least, inner, level.inner)?;
        if next.whole {
            push_sharing(rows, union, &self.all, least, rays, level.rays)?;
        }
        Ok(next)
    }

    // Takes the lists of a level off.
    fn leave(&mut self, level: Level)
        ensures all { self.new.all.items ≡ self.old.all.items }
        ensures inner { self.new.inner.items ≡ take level.inner self.old.inner.items }
        ensures rays { self.new.rays.items ≡ take level.rays self.old.rays.items }
    {
        self.inner.truncate(level.inner);
        self.rays.truncate(level.rays);
    }

    // Appends the pairs of the outer ray at a position with each adjacent ray near to it.
    fn push_ray(
        &mut self,
        search: &Search,
        pairs: &mut Pairs,
        position: usize,
        level: Level,
    ) -> Result<(), AllocError>
        requires search { IsReady search.now }
        requires position { position < length search.now.outer.now }
        requires near { let next = position + 1 in
            AreNear search.now position next level self.old.inner.items self.old.rays.items }
        requires before { HasFound search.now position 0 pairs.old.items }
        ensures kept { OnOk result (AreKept self.old self.new) }
        ensures found { OnOk result (HasFound search.now (position + 1) 0 pairs.new.items) }
    {
        if level.whole {
            return self.push_ranked(search, pairs, position, level);
        }
        push_near(search, pairs, position, &self.inner, level.inner)
    }

    // The same, where all near rays are listed.
    fn push_ranked(
        &mut self,
        search: &Search,
        pairs: &mut Pairs,
        position: usize,
        level: Level,
    ) -> Result<(), AllocError>
        requires search { IsReady search.now }
        requires position { position < length search.now.outer.now }
        requires whole { IsTrue level.whole }
        requires near { let next = position + 1 in
            AreNear search.now position next level self.old.inner.items self.old.rays.items }
        requires before { HasFound search.now position 0 pairs.old.items }
        ensures kept { OnOk result (AreKept self.old self.new) }
        ensures found { OnOk result (HasFound search.now (position + 1) 0 pairs.new.items) }
    {
        self.ranked.clear();
        for index in level.inner..self.inner.len() {
            let next = self.inner[index];
            let (rays, ranked) = (&self.rays, &mut self.ranked);
            let adjacent = is_adjacent_near(search, position, next, rays, level.rays, ranked)?;
            search.push_if(adjacent, pairs, position, next)?;
        }
        Ok(())
    }
}

/// Makes the list that of all numbers below one, with room for so many lists as long as it.
fn list_numbers(list: &mut Vec<usize>, count: usize, lists: usize) -> Result<(), AllocError>
    ensures { OnOk result (list.new.items ≡ range_with_len 0 count) }
{
    list.clear();
    list.reserve_exact(count.saturating_mul(lists))?;
    for number in 0..count {
        list.push(number)?;
    }
    Ok(())
}

/// How many rays each part of a group has, but for the last: a power of the number of parts.
fn part_size(rays: usize) -> usize
    requires { 1 < rays }
    ensures { (0 < result) × (result < rays) }
{
    let mut size = 1;
    while size <= (rays - 1) / PARTS {
        size *= PARTS;
    }
    size
}

/// Whether the outer rays, of which there are few beside the inner ones, are 0 on few rows of the
/// system together: then few of the inner rays are near to them.
fn is_local(search: &Search, union: &mut Vec<u64>) -> Result<bool, AllocError>
    requires { IsReady search.now }
{
    let rays = search.outer.len();
    if rays > search.inner.len() / LOCAL_TIMES {
        return Ok(false);
    }
    unite(search.zeros.words(), search.outer, 0, rays, union)?;
    Ok(count_places(union) <= search.zeros.columns() / 2)
}

/// Appends the pairs of an outer ray with each adjacent ray that the list has from `start` on.
fn push_near(
    search: &Search,
    pairs: &mut Pairs,
    position: usize,
    list: &[usize],
    start: usize,
) -> Result<(), AllocError>
    requires search { IsReady search.now }
    requires position { position < length search.now.outer.now }
    requires start { start ≤ length list.now }
    requires near { let s = search.now in
        let next = position + 1 in
        IsNear s.zeros.now s.outer.now s.inner.now s.least position next start list.now }
    requires before { HasFound search.now position 0 pairs.old.items }
    ensures { OnOk result (HasFound search.now (position + 1) 0 pairs.new.items) }
{
    for index in start..list.len() {
        search.push_pair(pairs, position, list[index])?;
    }
    Ok(())
}

/// Appends the pairs of a group of outer rays with each adjacent ray of those near to the group.
fn push_group(
    search: &Search,
    pairs: &mut Pairs,
    near: &mut Near,
    from: usize,
    to: usize,
    level: Level,
) -> Result<(), AllocError>
    requires search { IsReady search.now }
    requires to { (from < to) × (to ≤ length search.now.outer.now) }
    requires all { HasAll search.now.zeros.now level near.old.all.items }
    requires near { AreNear search.now from to level near.old.inner.items near.old.rays.items }
    requires before { HasFound search.now from 0 pairs.old.items }
    ensures kept { OnOk result (AreKept near.old near.new) }
    ensures found { OnOk result (HasFound search.now to 0 pairs.new.items) }
{
    if near.inner.len() == level.inner {
        return Ok(());
    }
    if to - from == 1 {
        return near.push_ray(search, pairs, from, level);
    }
    let size = part_size(to - from);
    let mut first = from;
    while first < to {
        let last = first + size.min(to - first);
        let next = near.narrow(search, first, last, level)?;
        push_group(search, pairs, near, first, last, next)?;
        near.leave(next);
        first = last;
    }
    Ok(())
}

/// Appends the pairs of adjacent rays of a search.
pub(crate) fn push_narrowed(
    search: &Search,
    near: &mut Near,
    pairs: &mut Pairs,
) -> Result<(), AllocError>
    requires search { IsReady search.now }
    requires outer { 0 < length search.now.outer.now }
    requires none { pairs.old.items ≡ [] }
    ensures { let rays = length search.now.outer.now in
        OnOk result (HasFound search.now rays 0 pairs.new.items) }
{
    let rays = search.outer.len();
    let is_local = is_local(search, &mut near.union)?;
    let all = near.begin(search)?;
    if !is_local {
        return push_group(search, pairs, near, 0, rays, all);
    }
    let level = near.narrow(search, 0, rays, all)?;
    push_group(search, pairs, near, 0, rays, level)
}
