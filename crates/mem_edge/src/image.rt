//! Images as vectors of sectors, and writes laid over them.

ghost use Rattle.std.specs.Prelude.{◌≡◌, ◌<◌, ◌≤◌, ℕ, length, drop, None, IfOk, OnOk};
ghost use Rattle.std.specs.Vec.Iter.{into_iter_items};
ghost use Rattle.hive_model.specs.Image.{put, overlaid, of_file, Address};
ghost use Rattle.nt_edge.specs.Book.{file_of};
ghost use Rattle.nt_edge.specs.Crash.{unreadable_at, torn};
ghost use Rattle.mem_edge.specs.Views.{found_of, held_in, held_of, writes_of, write_of, left, odd_ones, Holds};

use crate::writes::{InFlight, Sector};
use nt_edge::{Address, HiveFile, Keep, Presence};
use std::alloc::{AllocError, Global};
use std::vec::IntoIter;

/// The sectors of both files, each at its number.
#[derive(Drop)]
pub struct MemImage {
    pub primary: Vec<Sector>,
    pub log: Vec<Sector>,
}

/// Makes a place for a sector. No content changes, whatever the answer.
fn make_place(file: &mut Vec<Sector>, sector: u32) -> Result<(), AllocError>
    ensures same { (n : ℕ) → held_in file.new.items n ≡ held_in file.old.items n }
    ensures longer { length file.old.items ≤ length file.new.items }
    ensures place { OnOk result (sector < length file.new.items) }
{
    while file.len() <= sector as usize {
        file.push(Sector::Absent)?;
    }
    Ok(())
}

/// The same sectors, with their bytes shared.
fn copy_of(alloc: Global, file: &[Sector]) -> Result<Vec<Sector>, AllocError>
    ensures { IfOk result (λ copy. (n : ℕ) → held_in copy.items n ≡ held_in file.now n) }
{
    let copy = Vec::from_clones(alloc, file)?;
    Ok(copy)
}

impl MemImage {
    /// No sector is there. Takes no memory.
    pub fn new(alloc: Global) -> MemImage
        ensures { (a : Address) → held_of result a ≡ None }
    {
        MemImage {
            primary: Vec::new(alloc),
            log: Vec::new(alloc),
        }
    }

    /// The same sectors, with their bytes shared.
    pub fn copy(&self, alloc: Global) -> Result<MemImage, AllocError>
        ensures { IfOk result (λ m. held_of m ≡ held_of self.now) }
    {
        Ok(MemImage {
            primary: copy_of(alloc, &self.primary)?,
            log: copy_of(alloc, &self.log)?,
        })
    }

    /// The sectors of a file.
    pub fn file(&self, file: HiveFile) -> &[Sector]
        ensures { result.now ≡ of_file self.now.primary.items self.now.log.items (file_of file) }
    {
        match file {
            HiveFile::Primary => self.primary.as_slice(),
            HiveFile::Log => self.log.as_slice(),
        }
    }

    /// Reads what a sector has.
    pub fn read(&self, at: Address, into: &mut [u8; 512]) -> Presence
        ensures { found_of result into.new ≡ held_of self.now at }
    {
        match self.file(at.file).get(at.sector as usize) {
            Some(Sector::Whole(bytes)) => {
                *into = **bytes;
                Presence::Whole
            }
            Some(Sector::Unreadable) => Presence::Unreadable,
            Some(Sector::Absent) | None => Presence::Absent,
        }
    }

    /// Makes a place for one write.
    fn make_place_for(&mut self, w: &InFlight) -> Result<(), AllocError>
        ensures same { held_of self.new ≡ held_of self.old }
        ensures primary { length self.old.primary.items ≤ length self.new.primary.items }
        ensures log { length self.old.log.items ≤ length self.new.log.items }
        ensures place { OnOk result (w.now.at.sector
            < of_file (length self.new.primary.items) (length self.new.log.items) w.now.at.file) }
    {
        match w.at.file {
            HiveFile::Primary => make_place(&mut self.primary, w.at.sector),
            HiveFile::Log => make_place(&mut self.log, w.at.sector),
        }
    }

    /// Makes a place for each write. No content changes, whatever the answer.
    pub fn make_room(&mut self, flight: &[InFlight]) -> Result<(), AllocError>
        ensures same { held_of self.new ≡ held_of self.old }
        ensures room { OnOk result (Holds self.new flight.now) }
    {
        let mut rest = flight;
        while let [w, more @ ..] = rest {
            self.make_place_for(w)?;
            rest = more;
        }
        Ok(())
    }

    /// Lays a write over the image, which has a place for it.
    fn lay(&mut self, w: InFlight)
        requires { w.at.sector < of_file (length self.old.primary.items) (length self.old.log.items) w.at.file }
        ensures laid { held_of self.new ≡ put (held_of self.old) (write_of w) }
        ensures primary { length self.new.primary.items ≡ length self.old.primary.items }
        ensures log { length self.new.log.items ≡ length self.old.log.items }
    {
        match w.at.file {
            HiveFile::Primary => self.primary[w.at.sector as usize] = Sector::Whole(w.bytes),
            HiveFile::Log => self.log[w.at.sector as usize] = Sector::Whole(w.bytes),
        }
    }

    fn lay_all(&mut self, flight: Vec<InFlight>)
        requires { Holds self.old flight.items }
        ensures { held_of self.new ≡ overlaid (held_of self.old) (writes_of flight.items) }
    {
        let mut rest = flight.into_iter();
        while let Some(w) = rest.next() {
            self.lay(w);
        }
    }

    fn lay_odd(&mut self, flight: Vec<InFlight>)
        requires { Holds self.old flight.items }
        ensures { held_of self.new ≡ overlaid (held_of self.old) (odd_ones (writes_of flight.items)) }
    {
        let mut rest = flight.into_iter();
        while let Some(w) = rest.next() {
            self.lay(w);
            skip(&mut rest);
        }
    }

    /// Makes a sector unreadable, for which the image has a place.
    fn tear(&mut self, at: Address)
        requires { at.sector < of_file (length self.old.primary.items) (length self.old.log.items) at.file }
        ensures torn { held_of self.new ≡ unreadable_at at (held_of self.old) }
        ensures primary { length self.new.primary.items ≡ length self.old.primary.items }
        ensures log { length self.new.log.items ≡ length self.old.log.items }
    {
        match at.file {
            HiveFile::Primary => self.primary[at.sector as usize] = Sector::Unreadable,
            HiveFile::Log => self.log[at.sector as usize] = Sector::Unreadable,
        }
    }

    fn tear_all(&mut self, flight: Vec<InFlight>)
        requires { Holds self.old flight.items }
        ensures { held_of self.new ≡ torn (held_of self.old) (writes_of flight.items) }
    {
        let mut rest = flight.into_iter();
        while let Some(w) = rest.next() {
            self.tear(w.at);
        }
    }

    /// Makes of the image what a cut leaves of it and of the writes in flight. The image has a place for
    /// each of them and takes over their bytes, so no memory is wanted.
    pub fn settle(&mut self, flight: Vec<InFlight>, keep: Keep)
        requires { Holds self.old flight.items }
        ensures { held_of self.new ≡ left keep (held_of self.old) (writes_of flight.items) }
    {
        match keep {
            Keep::Nothing => {}
            Keep::Everything => self.lay_all(flight),
            Keep::OddOnes => self.lay_odd(flight),
            Keep::Torn => self.tear_all(flight),
        }
    }
}

/// Leaves the next one out.
fn skip(rest: &mut IntoIter<InFlight>)
    ensures { into_iter_items rest.new ≡ drop 1 (into_iter_items rest.old) }
{
    let _skipped = rest.next();
}
