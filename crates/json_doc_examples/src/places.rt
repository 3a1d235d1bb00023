//! The places that units of an output stand at.

ghost use Rattle.std.specs.Prelude.{◌≡◌, is_some, true};
ghost use Rattle.basic_output.specs.WrittenPointers.{IsWritten, IsWrittenOnward};

use basic_output::{Location, Mark, Origin, Says, Step, Units, WrittenPointer};
use json_doc::Fault;
use locations::same_steps;
use std::alloc::Global;

/// The steps of a location.
#[derive(Drop)]
pub struct Places<'a> {
    path: WrittenPointer<'a>,
    instance_location: WrittenPointer<'a>,
}

impl<'a> Places<'a> {
    pub fn new(alloc: Global) -> Result<Places<'a>, Fault> {
        Ok(Places {
            path: WrittenPointer::within(alloc, None)?,
            instance_location: WrittenPointer::within(alloc, None)?,
        })
    }

    /// To these steps along the path, and in the instance.
    pub fn turn_to(
        &mut self,
        path: &[Step<'a>],
        instance_location: &[Step<'a>],
    ) -> Result<(), Fault> {
        turn_to(&mut self.path, path)?;
        turn_to(&mut self.instance_location, instance_location)
    }

    /// Puts an annotation or else an error last, there, where the whole path leads on from this origin.
    pub fn push(
        &mut self,
        units: &mut Units,
        annotates: bool,
        origin: &Origin<'_>,
        says: Says<'_, '_>,
    ) -> Result<(), Fault> {
        let place = Place {
            origin,
            onward: self.path.len(),
        };
        place.push(
            units,
            annotates,
            &mut self.path,
            &mut self.instance_location,
            says,
        )
    }

    /// Puts an error last, there, where so many of the path's last steps lead on from this origin.
    pub fn push_error(
        &mut self,
        units: &mut Units,
        origin: &Origin<'_>,
        onward: usize,
        says: Says<'_, '_>,
    ) -> Result<(), Fault> {
        let place = Place { origin, onward };
        place.push(
            units,
            false,
            &mut self.path,
            &mut self.instance_location,
            says,
        )
    }

    /// Puts an error at a mark, there, where the whole path leads on from this origin.
    pub fn insert_error(
        &mut self,
        units: &mut Units,
        mark: Mark,
        origin: &Origin<'_>,
        says: Says<'_, '_>,
    ) -> Result<(), Fault> {
        let origin = origin.with_head()?;
        let onward = self.path.len();
        self.path.write_onward(onward)?;
        self.instance_location.write()?;
        insert_at(
            units,
            mark,
            &origin,
            &self.path,
            onward,
            &self.instance_location,
            says,
        )
    }
}

// Where so many of the path's last steps lead on from the origin: the texts, which are written.
fn located<'s>(
    origin: &'s Origin<'_>,
    path: &'s WrittenPointer<'_>,
    onward: usize,
    here: &'s WrittenPointer<'_>,
) -> Location<'s>
    requires head { is_some origin.now.head ≡ true }
    requires path { IsWrittenOnward path.now onward }
    requires here { IsWritten here.now }
{
    Location {
        head: origin.head(),
        onward: path.onward_text(onward),
        instance_location: here.text(),
        path: path.text(),
    }
}

// Puts an error at a mark, at these locations, which are written.
fn insert_at(
    units: &mut Units,
    mark: Mark,
    origin: &Origin<'_>,
    path: &WrittenPointer<'_>,
    onward: usize,
    here: &WrittenPointer<'_>,
    says: Says<'_, '_>,
) -> Result<(), Fault>
    requires head { is_some origin.now.head ≡ true }
    requires path { IsWrittenOnward path.now onward }
    requires here { IsWritten here.now }
{
    units.insert(mark, false, located(origin, path, onward, here), says)?;
    Ok(())
}

// Puts an annotation or else an error last, at these locations, which are written.
fn push_at(
    units: &mut Units,
    annotates: bool,
    origin: &Origin<'_>,
    path: &WrittenPointer<'_>,
    onward: usize,
    here: &WrittenPointer<'_>,
    says: Says<'_, '_>,
) -> Result<(), Fault>
    requires head { is_some origin.now.head ≡ true }
    requires path { IsWrittenOnward path.now onward }
    requires here { IsWritten here.now }
{
    units.push(annotates, located(origin, path, onward, here), says)?;
    Ok(())
}

/// An origin, and how many of a path's last steps lead on from there.
#[derive(Clone, Copy)]
pub struct Place<'s, 'a> {
    pub origin: &'s Origin<'a>,
    pub onward: usize,
}

impl<'s, 'a> Place<'s, 'a> {
    /// Puts an annotation or else an error last, there along the path and at this instance location.
    pub fn push(
        &self,
        units: &mut Units,
        annotates: bool,
        path: &mut WrittenPointer<'_>,
        instance_location: &mut WrittenPointer<'_>,
        says: Says<'_, '_>,
    ) -> Result<(), Fault> {
        let origin = self.origin.with_head()?;
        path.write_onward(self.onward)?;
        instance_location.write()?;
        push_at(
            units,
            annotates,
            &origin,
            path,
            self.onward,
            instance_location,
            says,
        )
    }
}

/// These steps below the root of this resource.
pub fn origin_at<'a>(
    alloc: Global,
    resource: &'a str,
    steps: &[Step<'a>],
) -> Result<Origin<'a>, Fault> {
    let steps = Vec::from_slice(alloc, steps)?;
    Ok(Origin::within(String::new(alloc), resource, steps)?)
}

/// The root of this resource.
pub fn root_of<'a>(alloc: Global, resource: &'a str) -> Result<Origin<'a>, Fault> {
    origin_at(alloc, resource, &[])
}

/// To these steps, of which those in front stay that are there already; then their text is written.
pub fn turn_to<'a>(pointer: &mut WrittenPointer<'a>, steps: &[Step<'a>]) -> Result<(), Fault> {
    let mut shared: usize = 0;
    for (old, new) in pointer.steps().iter().zip(steps) {
        if !same_steps(&[*old], &[*new]) {
            break;
        }
        shared = shared.saturating_add(1);
    }
    pointer.truncate(shared);
    for step in steps.iter().skip(shared) {
        pointer.push(*step)?;
    }
    pointer.write()?;
    Ok(())
}
