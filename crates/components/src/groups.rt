//! Groups of runs that are known to be connected, and how two groups become one.
ghost use Rattle.std.specs.Prelude.{◌≡◌, ◌<◌, ◌≤◌, ◌+◌, ◌^◌, ℕ, List, [], ◌∷◌, ◌++◌, IfOk, length, set};
ghost use Rattle.page_runs.specs.Page.{Page};
ghost use Rattle.components.specs.Around.{IsSmallRun, around, bounds_of, widened};
ghost use Rattle.components.specs.Groups.{AreRooted, DoPointBack, Joins, Member, group_at};

use crate::bounds::Bounds;
use crate::placed_run::PlacedRun;
use layout_limits::OutOfMemory;

/// Runs that are known to be connected. Where groups were joined one of them has all of their runs, and from the others
/// a way leads to it.
#[derive(Clone, Copy)]
pub(crate) struct Group {
    /// The next group on the way, which was begun before this one; or this group, where it has its runs itself.
    pub(crate) parent: u32,
    /// The sides round its runs.
    pub(crate) bounds: Bounds,
}

/// The next group on the way from this one.
pub(crate) fn parent_of(groups: &[Group], group: u32) -> u32
    requires { group < length groups.now }
    ensures { result ≡ (group_at groups.now group).parent }
{
    groups[group as usize].parent
}

/// Lets a group point at this one.
fn point(groups: &mut Vec<Group>, group: u32, parent: u32)
    requires { group < length groups.old.items }
    ensures { groups.new.items ≡ set groups.old.items group
        (record { parent = parent; bounds = (group_at groups.old.items group).bounds }) }
{
    let bounds = groups[group as usize].bounds;
    groups[group as usize] = Group { parent, bounds };
}

/// The group at which the way from this one ends. The groups on the way point further from then on, so that it is shorter
/// the next time.
pub(crate) fn root_of(groups: &mut Vec<Group>, group: u32) -> u32
    requires below { group < length groups.old.items }
    requires back { DoPointBack groups.old.items }
    ensures below { result < length groups.new.items }
    ensures back { DoPointBack groups.new.items }
    ensures len { length groups.new.items ≡ length groups.old.items }
    ensures bounds { (g : ℕ) → (group_at groups.new.items g).bounds ≡ (group_at groups.old.items g).bounds }
    ensures rooted { (root : ℕ → ℕ) → AreRooted groups.old.items root → AreRooted groups.new.items root × (result ≡ root group) }
{
    let mut at = group;
    let mut parent = parent_of(groups, at);
    while parent != at {
        let next = parent_of(groups, parent);
        point(groups, at, next);
        at = next;
        parent = parent_of(groups, at);
    }
    at
}

/// Begins a group with this run.
pub(crate) fn begin(groups: &mut Vec<Group>, run: PlacedRun) -> Result<u32, OutOfMemory>
    requires small { IsSmallRun run }
    requires few { length groups.old.items + 1 < 2 ^ 32 }
    ensures group { IfOk result (λ group. group ≡ length groups.old.items) }
    ensures begun { IfOk result (λ group. groups.new.items ≡ groups.old.items ++ (record { parent = group; bounds = bounds_of run }) ∷ []) }
{
    let group = groups.len() as u32;
    let bounds = Bounds::of(run);
    groups.push(Group {
        parent: group,
        bounds,
    })?;
    Ok(group)
}

/// Adds a run to a group.
pub(crate) fn add(groups: &mut Vec<Group>, group: u32, run: PlacedRun)
    requires below { group < length groups.old.items }
    requires small { IsSmallRun run }
    ensures { groups.new.items ≡ set groups.old.items group
        (record { parent = (group_at groups.old.items group).parent; bounds = widened (group_at groups.old.items group).bounds run }) }
{
    let mut bounds = groups[group as usize].bounds;
    bounds.add(run);
    let parent = parent_of(groups, group);
    groups[group as usize] = Group { parent, bounds };
}

/// Gives the runs of the second group, to which no way goes on, to the first.
fn merge(groups: &mut Vec<Group>, first: u32, second: u32)
    requires first { first < second }
    requires second { second < length groups.old.items }
    ensures { groups.new.items ≡ set (set groups.old.items first
        (record { parent = first; bounds = around (group_at groups.old.items first).bounds (group_at groups.old.items second).bounds }))
        second (record { parent = first; bounds = (group_at groups.old.items second).bounds }) }
{
    let other = groups[second as usize].bounds;
    let bounds = groups[first as usize].bounds.around(other);
    groups[first as usize] = Group {
        parent: first,
        bounds,
    };
    groups[second as usize] = Group {
        parent: first,
        bounds: other,
    };
}

/// Makes one group of the groups of two runs that are connected.
pub(crate) fn join(groups: &mut Vec<Group>, one: u32, other: u32)
    requires one { one < length groups.old.items }
    requires other { other < length groups.old.items }
    requires back { DoPointBack groups.old.items }
    ensures back { DoPointBack groups.new.items }
    ensures len { length groups.new.items ≡ length groups.old.items }
    ensures joined { (page : Page) (members : List Member) (root : ℕ → ℕ)
        → Joins page members one other groups.old.items root groups.new.items }
{
    let first = root_of(groups, one);
    let second = root_of(groups, other);
    if first < second {
        merge(groups, first, second);
    } else if second < first {
        merge(groups, second, first);
    }
}
