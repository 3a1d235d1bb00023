//! The evaluation path and the instance location, and the schema objects that are being applied along them.

ghost use Rattle.std.specs.Prelude.{◌≡◌, ◌≤◌, ◌-◌, ◌++◌, ◌∷◌, ◌&&◌, [], false, true, Some, if◌then◌else◌, is_ok, length, map, max, option_map, take, ℕ, IfOk, IfSome, OnOk, List, Option};
ghost use Rattle.std.specs.List.{list_any};
ghost use Rattle.definitions.specs.Pointers.{same_pointer};
ghost use Rattle.definitions.specs.Values.{Text};
ghost use Rattle.definitions.specs.Schemas.{Identity, same_identity};
ghost use Rattle.definitions.specs.Applied.{InstanceLocation};
ghost use Rattle.definitions.specs.Outcomes.{same_name};
ghost use Rattle.locations.specs.Steps.{token, tokens};
ghost use Rattle.basic_output.specs.PointerViews.{pointer_view};
ghost use Rattle.basic_output.specs.WrittenPointers.{IsWritten, IsWrittenOnward};
ghost use Rattle.evaluation_context.specs.Ends.{identity_end, tell_ends, tells_end};
ghost use Rattle.evaluation_context.specs.Runnings.{are_above, are_laid, is_running_as, last_end, last_steps, onward_identity, running_identity, running_view};

use crate::context_memory::PointersMemory;
use crate::ends::{are_other_ends, end_of};
use crate::running::Running;
use basic_output::{Origin, WrittenPointer};
use locations::{Step, same_steps};
use std::alloc::{AllocError, Global};
use std::rc::Rc;

/// The evaluation path and the instance location, and the schema objects that are being applied, the outermost first. Each is
/// applied where the one before it is, or below, so that the paths to all of them are beginnings of this path, and their
/// instance locations beginnings of this one.
///
/// Contracts see the identities and instance locations of the objects by `running_objects`, how long the paths to them are
/// by `path_ends`, the path by `path_pointer` and the instance location by `instance_pointer`.
#[derive(Drop)]
pub(crate) struct RunningObjects<'a> {
    entries: Vec<Running<'a>>,
    pub(crate) path: WrittenPointer<'a>,
    pub(crate) instance_location: WrittenPointer<'a>,
    ghost laid: { are_laid (λ r. r.reach) 0 (length (pointer_view path)) entries.items ≡ true },
    ghost nested: { are_laid (λ r. r.depth) 0 (length (pointer_view instance_location))
        entries.items
        ≡ true },
    ghost told: { tell_ends entries.items
        (map (running_view (pointer_view path) (pointer_view instance_location)) entries.items)
        ≡ true },
}

impl<'a> RunningObjects<'a> {
    ghost use Rattle.evaluation_context.specs.RunningViews.{instance_pointer, path_ends, path_pointer, running_objects};

    /// None, at the whole instance, whose texts are written in memory that was kept, if any was. The only error is want of memory.
    pub(crate) fn within(
        alloc: Global,
        memory: PointersMemory,
    ) -> Result<RunningObjects<'a>, AllocError>
        ensures running { IfOk result (λ o. running_objects o ≡ []) }
        ensures ends { IfOk result (λ o. path_ends o ≡ []) }
        ensures path { IfOk result (λ o. path_pointer o ≡ []) }
        ensures instance_location { IfOk result (λ o. instance_pointer o ≡ []) }
    {
        Ok(RunningObjects {
            entries: Vec::new(alloc),
            path: WrittenPointer::within(alloc, memory.path)?,
            instance_location: WrittenPointer::within(alloc, memory.instance_location)?,
        })
    }

    /// The memory that the path and the instance location were written in.
    pub(crate) fn into_memory(self) -> PointersMemory {
        let RunningObjects {
            path,
            instance_location,
            ..
        } = self;
        PointersMemory {
            path: path.into_memory(),
            instance_location: instance_location.into_memory(),
        }
    }

    /// The evaluation path.
    pub(crate) fn path(&self) -> &WrittenPointer<'a>
        ensures { pointer_view result.now ≡ path_pointer self.now }
    {
        &self.path
    }

    /// The last steps of the path, so many.
    pub(crate) fn last_steps(&self, count: usize) -> &[Step<'a>]
        ensures { tokens result.now ≡ last_steps count (path_pointer self.now) }
    {
        last_steps(self.path.steps(), count)
    }

    /// The instance location.
    pub(crate) fn instance_location(&self) -> &WrittenPointer<'a>
        ensures { pointer_view result.now ≡ instance_pointer self.now }
    {
        &self.instance_location
    }

    /// Writes what the texts of the path and of the instance location lack, for units at a keyword to which so many of the path's
    /// last steps lead on from the origin. The only error is want of memory.
    pub(crate) fn write(&mut self, onward: usize) -> Result<(), AllocError>
        ensures path_written { OnOk result (IsWrittenOnward self.new.path onward) }
        ensures instance_written { OnOk result (IsWritten self.new.instance_location) }
        ensures running { running_objects self.new ≡ running_objects self.old }
        ensures ends { path_ends self.new ≡ path_ends self.old }
        ensures path { path_pointer self.new ≡ path_pointer self.old }
        ensures instance_location { instance_pointer self.new ≡ instance_pointer self.old }
    {
        self.path.write_onward(onward)?;
        self.instance_location.write()
    }

    /// The path is one step longer. The only error is want of memory, and then it stays as it was.
    pub(crate) fn lengthen(&mut self, step: Step<'a>) -> Result<(), AllocError>
        ensures running { running_objects self.new ≡ running_objects self.old }
        ensures ends { path_ends self.new ≡ path_ends self.old }
        ensures path { path_pointer self.new
            ≡ (if is_ok result then path_pointer self.old ++ token step.entry ∷ []
            else path_pointer self.old) }
        ensures instance_location { instance_pointer self.new ≡ instance_pointer self.old }
    {
        self.path.push(step)
    }

    /// The path is one step shorter, where no object needs that step.
    pub(crate) fn step_back(&mut self)
        ensures running { running_objects self.new ≡ running_objects self.old }
        ensures ends { path_ends self.new ≡ path_ends self.old }
        ensures path { path_pointer self.new
            ≡ take (max (length (path_pointer self.old) - 1) (last_end 0 (path_ends self.old)))
            (path_pointer self.old) }
        ensures instance_location { instance_pointer self.new ≡ instance_pointer self.old }
    {
        let len = self.path.len();
        if self.needed().0 < len {
            self.path.truncate(len - 1);
        }
    }

    /// The instance location is one step longer.
    pub(crate) fn deepen(&mut self, step: Step<'a>) -> Result<(), AllocError>
        ensures running { OnOk result (running_objects self.new ≡ running_objects self.old) }
        ensures ends { path_ends self.new ≡ path_ends self.old }
        ensures path { path_pointer self.new ≡ path_pointer self.old }
        ensures instance_location { OnOk result
            (instance_pointer self.new ≡ instance_pointer self.old ++ token step.entry ∷ []) }
    {
        self.instance_location.push(step)
    }

    /// Only so many steps of the path and so many of the instance location stay, and those that an object needs.
    pub(crate) fn cut(&mut self, steps: usize, instance_steps: usize)
        ensures running { running_objects self.new ≡ running_objects self.old }
        ensures ends { path_ends self.new ≡ path_ends self.old }
        ensures path { path_pointer self.new
            ≡ take (max steps (last_end 0 (path_ends self.old))) (path_pointer self.old) }
        ensures instance_location { are_above instance_steps (running_objects self.old) ≡ true
            → instance_pointer self.new ≡ take instance_steps (instance_pointer self.old) }
    {
        let (reach, depth) = self.needed();
        self.path.truncate(steps.max(reach));
        self.instance_location.truncate(instance_steps.max(depth));
    }

    // How many steps of the path and of the instance location lead to the innermost object.
    fn needed(&self) -> (usize, usize)
        ensures reach { result.0 ≡ last_end 0 (path_ends self.now) }
        ensures depth { result.1 ≡ last_end 0 (map (λ r. r.depth) self.now.entries.items) }
    {
        match self.entries.last() {
            Some(entry) => (entry.reach, entry.depth),
            None => (0, 0),
        }
    }

    /// One object more, the innermost, applied at the end of the path and at the instance location. So many of the path's last
    /// steps lead on to it from the origin. The only error is want of memory.
    pub(crate) fn push(
        &mut self,
        origin: Rc<Origin<'a>>,
        onward: usize,
        name: Option<&'a str>,
    ) -> Result<(), AllocError>
        ensures running { OnOk result (running_objects self.new ≡ running_objects self.old
            ++ (
              onward_identity origin.entry.value (last_steps onward (path_pointer self.old)),
              record {
                pointer = instance_pointer self.old;
                name = option_map
                    (λ n. n.now) name.entry;
              },
            )
            ∷ []) }
        ensures ends { OnOk result (path_ends self.new
            ≡ path_ends self.old ++ length (path_pointer self.old) ∷ []) }
        ensures path { path_pointer self.new ≡ path_pointer self.old }
        ensures instance_location { instance_pointer self.new ≡ instance_pointer self.old }
    {
        let end = end_of(&origin, self.last_steps(onward));
        self.entries.push(Running {
            origin,
            name,
            reach: self.path.len(),
            onward,
            depth: self.instance_location.len(),
            end,
        })?;
        Ok(())
    }

    /// One object less, the innermost.
    pub(crate) fn pop(&mut self)
        ensures running { (older : List (Identity × InstanceLocation))
            (e : Identity × InstanceLocation)
            → running_objects self.old ≡ older ++ e ∷ [] → running_objects self.new ≡ older }
        ensures ends { (older : List ℕ) (end : ℕ) → path_ends self.old ≡ older ++ end ∷ []
            → path_ends self.new ≡ older }
        ensures path { path_pointer self.new ≡ path_pointer self.old }
        ensures instance_location { instance_pointer self.new ≡ instance_pointer self.old }
    {
        self.entries.pop();
    }

    /// Whether one of them stands below the origin by the last steps of the path, so many, and is applied at the instance
    /// location with this name.
    pub(crate) fn contains(&self, origin: &Origin<'_>, onward: usize, name: Option<&str>) -> bool
        ensures { result ≡ list_any
            (is_running_as (onward_identity origin.now (last_steps onward (path_pointer self.now)))
            (record {
              pointer = instance_pointer self.now;
              name = option_map
                  (λ n. n.now) name.entry;
            }))
            (running_objects self.now) }
    {
        if !self.may_have_one_here() {
            return false;
        }
        let end = end_of(origin, self.last_steps(onward));
        self.contains_here(origin, onward, end, name)
    }

    // Whether one of them may be applied at the instance location: mostly none is.
    fn may_have_one_here(&self) -> bool
        ensures { (identity : Identity) (name : Option Text) → result ≡ false → list_any
            (is_running_as identity (record {
              pointer = instance_pointer self.now;
              name = name;
            }))
            (running_objects self.now)
            ≡ false }
    {
        self.needed().1 == self.instance_location.len()
    }

    // Whether one of them is the schema to which the last steps of the path, so many, lead from the origin, applied at the
    // instance location with this name. The schema's identity ends so. Objects higher up stand before those at the instance
    // location, so that the search ends at the first of them.
    fn contains_here(
        &self,
        origin: &Origin<'_>,
        onward: usize,
        end: u32,
        name: Option<&str>,
    ) -> bool
        requires { tells_end end (identity_end
            (onward_identity origin.now (last_steps onward (path_pointer self.now))))
            ≡ true }
        ensures { result ≡ list_any
            (is_running_as (onward_identity origin.now (last_steps onward (path_pointer self.now)))
            (record {
              pointer = instance_pointer self.now;
              name = option_map
                  (λ n. n.now) name.entry;
            }))
            (running_objects self.now) }
    {
        let depth = self.instance_location.len();
        let mut left = self.entries.len();
        while left > 0 {
            left -= 1;
            let entry = &self.entries[left];
            if entry.depth < depth {
                return false;
            }
            if is_same(self.path.steps(), entry, origin, onward, end, name) {
                return true;
            }
        }
        false
    }
}

// The last steps, so many.
fn last_steps<'s, 'a>(steps: &'s [Step<'a>], count: usize) -> &'s [Step<'a>]
    ensures { tokens result.now ≡ last_steps count (tokens steps.now) }
{
    &steps[steps.len().saturating_sub(count)..]
}

// Whether the object is the schema to which the last steps of the path, so many, lead from the origin, applied where the name
// at the instance location is this one. The schema's identity ends so: mostly that alone tells.
#[inline(always)]
fn is_same(
    path: &[Step<'_>],
    object: &Running<'_>,
    origin: &Origin<'_>,
    onward: usize,
    end: u32,
    name: Option<&str>,
) -> bool
    requires reach { object.now.reach ≤ length path.now }
    requires told { tells_end object.now.end
        (identity_end (running_identity (tokens path.now) object.now))
        ≡ true }
    requires own { tells_end end (identity_end
        (onward_identity origin.now (last_steps onward (tokens path.now))))
        ≡ true }
    ensures { result ≡ (same_identity (running_identity (tokens path.now) object.now)
        (onward_identity origin.now (last_steps onward (tokens path.now)))
        && same_name (option_map (λ n. n.now) object.now.name)
        (option_map (λ n. n.now) name.entry)) }
{
    !are_other_ends(object.end, end) && is_same_throughout(path, object, origin, onward, name)
}

// Whether the object is the schema to which the last steps of the path, so many, lead from the origin, applied where the name at
// the instance location is this one, however their identities end. It is called apart, since few searches get so far.
#[inline(never)]
fn is_same_throughout(
    path: &[Step<'_>],
    object: &Running<'_>,
    origin: &Origin<'_>,
    onward: usize,
    name: Option<&str>,
) -> bool
    requires { object.now.reach ≤ length path.now }
    ensures { result ≡ (same_identity (running_identity (tokens path.now) object.now)
        (onward_identity origin.now (last_steps onward (tokens path.now)))
        && same_name (option_map (λ n. n.now) object.now.name)
        (option_map (λ n. n.now) name.entry)) }
{
    let (to_object, _) = path.split_at(object.reach);
    let own_onward = last_steps(to_object, object.onward);
    let onward = last_steps(path, onward);
    is_same_schema(&object.origin, own_onward, origin, onward) && same_name(object.name, name)
}

// Whether the steps lead from the origin to the schema to which the others lead from the other origin. Resources differ
// less often than pointers.
fn is_same_schema(
    origin: &Origin<'_>,
    onward: &[Step<'_>],
    other: &Origin<'_>,
    other_onward: &[Step<'_>],
) -> bool
    ensures { result ≡ same_identity (onward_identity origin.now (tokens onward.now))
        (onward_identity other.now (tokens other_onward.now)) }
{
    are_joined(origin.steps(), onward, other.steps(), other_onward)
        && origin.resource() == other.resource()
}

// Whether the steps of the first two lists are those of the others.
fn are_joined(
    first: &[Step<'_>],
    second: &[Step<'_>],
    other_first: &[Step<'_>],
    other_second: &[Step<'_>],
) -> bool
    ensures { result ≡ same_pointer (tokens first.now ++ tokens second.now)
        (tokens other_first.now ++ tokens other_second.now) }
{
    if first.len() <= other_first.len() {
        are_joined_within(first, second, other_first, other_second)
    } else {
        are_joined_within(other_first, other_second, first, second)
    }
}

// Whether the steps of the first two lists are those of the others, where the first list is no longer than the third. What
// differs mostly does so behind it.
fn are_joined_within(
    first: &[Step<'_>],
    second: &[Step<'_>],
    other_first: &[Step<'_>],
    other_second: &[Step<'_>],
) -> bool
    requires { length first.now ≤ length other_first.now }
    ensures { result ≡ same_pointer (tokens first.now ++ tokens second.now)
        (tokens other_first.now ++ tokens other_second.now) }
{
    let (front, rest) = other_first.split_at(first.len());
    are_both(second, rest, other_second) && same_steps(first, front)
}

// Whether the steps are those of the first list and then those of the second. What differs mostly does so in the second.
fn are_both(steps: &[Step<'_>], first: &[Step<'_>], second: &[Step<'_>]) -> bool
    ensures { result ≡ same_pointer (tokens steps.now) (tokens first.now ++ tokens second.now) }
{
    let seam = first.len();
    if steps.len() < seam {
        return false;
    }
    let (front, back) = steps.split_at(seam);
    same_steps(back, second) && same_steps(front, first)
}

fn same_name(first: Option<&str>, second: Option<&str>) -> bool
    ensures { result ≡ same_name (option_map (λ n. n.now) first.entry)
        (option_map (λ n. n.now) second.entry) }
{
    match first {
        Some(name) => match second {
            Some(other) => name == other,
            None => false,
        },
        None => second.is_none(),
    }
}
