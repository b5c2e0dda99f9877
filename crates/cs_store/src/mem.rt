//! A store in memory.

ghost use Rattle.std.specs.Prelude.{◌≡◌, ℕ, ◌+◌, ◌^◌, ◌<◌, ◌≤◌, ◌++◌, [], ◌∷◌, length, take, is_ok, IsOk, IsErr, IfOk, OnOk, OnErr, None, Some, Ok, Err, true, false, vec_len, slice_index_or};
ghost use Rattle.cs_store.specs.Faults.{HasCause};
ghost use Rattle.cs_store.specs.Calls.{Call as call};
ghost use Rattle.cs_store.specs.Disk.{Disk, overwritten, Torn, Cut, Stays, IsSettled, IsImage, Changes, SameFiles, Passes};
ghost use Rattle.cs_store.specs.Images.{Becomes, untouched, written, shortened, settled, quiet, outcome_of, formatted_bytes};
ghost use Rattle.cs_store.specs.MemFile.{nothing};
ghost use Rattle.cs_store.specs.Past.{image_at};
ghost use Rattle.cs_store.specs.Plan.{sooner, begin_of, plan_after, stopped_after};

use crate::mem_file::MemFile;
use crate::plan::{Fault, Plan};
use crate::{FileNo, Outcome, Store};
use cs_base::{Failed, Faults};
use http_server::Log;
use std::alloc::{AllocError, Global};

/// How many files a store has.
const FILES: usize = 4096;

/// Up to where room can be had for a file.
const MAX_LEN: u64 = 1 << 63;

/// A disk in memory, whose calls fail as they are told to.
///
/// A node that stops has its files settled at once, and each call answers `Failed` until `crash`.
#[derive(Drop)]
pub struct MemStore {
    files: Vec<MemFile>,
    plan: Option<Plan>,
    is_stopped: bool,
    faults: Faults,
    // The counted calls, and the files before each change, for proofs alone: they take no memory.
    calls: Log<(), ()>,
    past: Log<Vec<MemFile>, ()>,
    ghost whole: { vec_len files ≡ 4096 },
}

impl MemStore {
    ghost use Rattle.cs_store.specs.Mem.{images_of, disk_of, room_at, faults_of, calls_of, plan_of, is_stopped, spares, IsSure, IsSameDisk, IsAllSettled, EndsBy};

    /// A store with one zero byte in each of the files 0 to 3 and nothing else.
    pub fn formatted(alloc: Global) -> Result<MemStore, AllocError>
        ensures files { IfOk result (λ s. (k : ℕ) → images_of s k ≡ quiet (formatted_bytes k)) }
        ensures settled { IfOk result IsAllSettled }
        ensures sure { IfOk result IsSure }
        ensures faults { IfOk result (λ s. faults_of s ≡ 0) }
        ensures calls { IfOk result (λ s. calls_of s ≡ 0) }
    {
        Ok(MemStore {
            files: format_files(alloc)?,
            plan: None,
            is_stopped: false,
            faults: Faults::new(),
            calls: Log::new(),
            past: Log::new(),
        })
    }

    /// Lets the j-th call from now fail and do nothing. Of two faults the sooner comes, and at one call a failure;
    /// a call that fails or stops the node forgets those that were still to come. `reserve` isn't counted.
    pub fn fail_at(&mut self, j: u32)
        requires { 1 ≤ j }
        ensures plan { plan_of self.new ≡ Some (sooner (plan_of self.old) (record { calls = j; fault = Fault.Fail })) }
        ensures disk { IsSameDisk self.old self.new }
        ensures faults { faults_of self.new ≡ faults_of self.old }
        ensures calls { calls_of self.new ≡ calls_of self.old }
        ensures stopped { is_stopped self.new ≡ is_stopped self.old }
    {
        self.plan_fault(j, Fault::Fail);
    }

    /// Stops the node at the j-th call from now, once that call's effect is pending. A sync at which it stops has
    /// not settled.
    pub fn stop_at(&mut self, j: u32, outcome: Outcome)
        requires { 1 ≤ j }
        ensures plan { plan_of self.new ≡ Some (sooner (plan_of self.old) (record { calls = j; fault = Fault.Stop outcome })) }
        ensures disk { IsSameDisk self.old self.new }
        ensures faults { faults_of self.new ≡ faults_of self.old }
        ensures calls { calls_of self.new ≡ calls_of self.old }
        ensures stopped { is_stopped self.new ≡ is_stopped self.old }
    {
        self.plan_fault(j, Fault::Stop(outcome));
    }

    /// How often a call has failed.
    pub fn faults(&self) -> Faults
        ensures { result ≡ faults_of self.now }
    {
        self.faults
    }

    fn plan_fault(&mut self, j: u32, fault: Fault)
        ensures plan { plan_of self.new ≡ Some (sooner (plan_of self.old) (record { calls = j; fault = fault })) }
        ensures disk { IsSameDisk self.old self.new }
        ensures faults { faults_of self.new ≡ faults_of self.old }
        ensures calls { calls_of self.new ≡ calls_of self.old }
        ensures stopped { is_stopped self.new ≡ is_stopped self.old }
    {
        let plan = Plan { calls: j, fault };
        self.plan = Some(plan.or_sooner(self.plan));
    }

    /// Crashes the node and lets it start again: the files are what the outcome says, and faults that were still to
    /// come are forgotten. The files of a node that had stopped are as they were.
    pub fn crash(&mut self, outcome: Outcome)
        ensures files { (k : ℕ) → images_of self.new k ≡ settled outcome (images_of self.old k) }
        ensures left { IsImage (disk_of self.old) (disk_of self.old).moment (disk_of self.new).seen }
        ensures settled { IsAllSettled self.new }
        ensures sure { IsSure self.new }
        ensures faults { faults_of self.new ≡ faults_of self.old }
        ensures calls { calls_of self.new ≡ calls_of self.old }
    {
        self.settle(outcome);
        self.plan = None;
        self.is_stopped = false;
    }

    // Settles each file by an outcome.
    pub(crate) fn settle(&mut self, outcome: Outcome)
        ensures files { (k : ℕ) → images_of self.new k ≡ settled outcome (images_of self.old k) }
        ensures left { IsImage (disk_of self.old) (disk_of self.old).moment (disk_of self.new).seen }
        ensures settled { IsAllSettled self.new }
        ensures crash { (f : ℕ) → Passes f Stays (disk_of self.old) (disk_of self.new) }
        ensures room { (k : ℕ) → room_at self.old k ≤ room_at self.new k }
        ensures plan { plan_of self.new ≡ plan_of self.old }
        ensures stopped { is_stopped self.new ≡ is_stopped self.old }
        ensures faults { faults_of self.new ≡ faults_of self.old }
        ensures calls { calls_of self.new ≡ calls_of self.old }
    {
        self.note();
        settle_each(&mut self.files, outcome);
    }

    // Keeps the files as they are in the history.
    fn note(&mut self)
        ensures past { self.new.past.items ≡ self.old.past.items ++ (self.old.files, tt) ∷ [] }
        ensures files { self.new.files ≡ self.old.files }
        ensures plan { plan_of self.new ≡ plan_of self.old }
        ensures stopped { is_stopped self.new ≡ is_stopped self.old }
        ensures faults { faults_of self.new ≡ faults_of self.old }
        ensures calls { calls_of self.new ≡ calls_of self.old }
    {
        self.past = self.past.and(&self.files, &());
    }

    // A write, whose effect is pending.
    fn put(&mut self, f: FileNo, at: usize, bytes: &[u8])
        requires place { at ≤ length ((disk_of self.old).seen f) }
        requires room { at + length bytes.now ≤ room_at self.old f }
        ensures files { Becomes f (written at bytes.now) untouched (images_of self.old) (images_of self.new) }
        ensures crash { Passes f (Torn at (length bytes.now)) (disk_of self.old) (disk_of self.new) }
        ensures room { (k : ℕ) → room_at self.old k ≤ room_at self.new k }
        ensures plan { plan_of self.new ≡ plan_of self.old }
        ensures stopped { is_stopped self.new ≡ is_stopped self.old }
        ensures faults { faults_of self.new ≡ faults_of self.old }
        ensures calls { calls_of self.new ≡ calls_of self.old }
    {
        self.note();
        let file = &mut self.files[usize::from(f.number())];
        file.write_at(at, bytes);
    }

    // A cut, whose effect is pending.
    fn shorten(&mut self, f: FileNo, len: usize)
        requires { len ≤ length ((disk_of self.old).seen f) }
        ensures files { Becomes f (shortened len) untouched (images_of self.old) (images_of self.new) }
        ensures crash { Passes f (Cut len) (disk_of self.old) (disk_of self.new) }
        ensures room { (k : ℕ) → room_at self.old k ≤ room_at self.new k }
        ensures plan { plan_of self.new ≡ plan_of self.old }
        ensures stopped { is_stopped self.new ≡ is_stopped self.old }
        ensures faults { faults_of self.new ≡ faults_of self.old }
        ensures calls { calls_of self.new ≡ calls_of self.old }
    {
        self.note();
        let file = &mut self.files[usize::from(f.number())];
        file.cut(len);
    }

    // A sync of one file.
    fn settle_one(&mut self, f: FileNo)
        ensures files { Becomes f (settled Outcome.Kept) untouched (images_of self.old) (images_of self.new) }
        ensures crash { Passes f Stays (disk_of self.old) (disk_of self.new) }
        ensures room { (k : ℕ) → room_at self.old k ≤ room_at self.new k }
        ensures plan { plan_of self.new ≡ plan_of self.old }
        ensures stopped { is_stopped self.new ≡ is_stopped self.old }
        ensures faults { faults_of self.new ≡ faults_of self.old }
        ensures calls { calls_of self.new ≡ calls_of self.old }
    {
        self.note();
        let file = &mut self.files[usize::from(f.number())];
        file.settle(Outcome::Kept);
    }

    // Counts a call. Tells whether it fails now, or else the outcome with which the node stops at its end.
    fn begin(&mut self) -> Result<Option<Outcome>, Failed>
        ensures answer { result ≡ begin_of (is_stopped self.old) (plan_of self.old) }
        ensures plan { plan_of self.new ≡ plan_after (is_stopped self.old) (plan_of self.old) }
        ensures surely { (m n : ℕ) → n < m → spares self.old m → (result ≡ Ok None) × spares self.new n }
        ensures disk { IsSameDisk self.old self.new }
        ensures stopped { is_stopped self.new ≡ is_stopped self.old }
        ensures cause { HasCause (faults_of self.old) (faults_of self.new) result }
        ensures counted { calls_of self.new ≡ calls_of self.old + 1 }
    {
        self.calls = self.calls.and(&(), &());
        self.next_fault()
    }

    // What the plan says of this call.
    fn next_fault(&mut self) -> Result<Option<Outcome>, Failed>
        ensures answer { result ≡ begin_of (is_stopped self.old) (plan_of self.old) }
        ensures plan { plan_of self.new ≡ plan_after (is_stopped self.old) (plan_of self.old) }
        ensures surely { (m n : ℕ) → n < m → spares self.old m → (result ≡ Ok None) × spares self.new n }
        ensures disk { IsSameDisk self.old self.new }
        ensures stopped { is_stopped self.new ≡ is_stopped self.old }
        ensures cause { HasCause (faults_of self.old) (faults_of self.new) result }
        ensures calls { calls_of self.new ≡ calls_of self.old }
    {
        if self.is_stopped {
            return self.fail();
        }
        match self.plan {
            None => Ok(None),
            Some(plan) if plan.calls > 1 => {
                self.plan = Some(Plan {
                    calls: plan.calls - 1,
                    fault: plan.fault,
                });
                Ok(None)
            }
            Some(plan) => {
                self.plan = None;
                match plan.fault {
                    Fault::Fail => self.fail(),
                    Fault::Stop(outcome) => Ok(Some(outcome)),
                }
            }
        }
    }

    // Counts a fault.
    fn fail<T>(&mut self) -> Result<T, Failed>
        ensures answer { IsErr result }
        ensures disk { IsSameDisk self.old self.new }
        ensures plan { plan_of self.new ≡ plan_of self.old }
        ensures stopped { is_stopped self.new ≡ is_stopped self.old }
        ensures cause { HasCause (faults_of self.old) (faults_of self.new) result }
        ensures calls { calls_of self.new ≡ calls_of self.old }
    {
        self.faults.raise();
        Err(Failed)
    }

    // Ends a call at which the node may stop.
    fn end(&mut self, stop: Option<Outcome>) -> Result<(), Failed>
        ensures ok { OnOk result (IsSameDisk self.old self.new) }
        ensures goes { stop ≡ None → IsOk result }
        ensures files { EndsBy stop (images_of self.old) (images_of self.new) (is_ok result) }
        ensures stops { (o : Outcome) → stop ≡ Some o → is_stopped self.new ≡ true }
        ensures crash { (f : ℕ) → Passes f Stays (disk_of self.old) (disk_of self.new) }
        ensures room { (k : ℕ) → room_at self.old k ≤ room_at self.new k }
        ensures plan { plan_of self.new ≡ plan_of self.old }
        ensures runs { OnOk result (is_stopped self.new ≡ is_stopped self.old) }
        ensures cause { HasCause (faults_of self.old) (faults_of self.new) result }
        ensures calls { calls_of self.new ≡ calls_of self.old }
    {
        match stop {
            None => Ok(()),
            Some(outcome) => {
                self.settle(outcome);
                self.is_stopped = true;
                self.fail()
            }
        }
    }
}

impl Store for MemStore {
    ghost use Rattle.cs_store.specs.Mem.{disk_of, room_at, faults_of, calls_of, spares, Acts, mem_may_stay, mem_spares_fewer};

    ghost is_honest = { Unit {0} };

    ghost disk = { disk_of };

    ghost faults = { faults_of };

    ghost calls = { calls_of };

    ghost spares = { spares };

    ghost reserved = { room_at };

    ghost acts = { Acts };

    ghost may_stay = { mem_may_stay };

    ghost spares_fewer = { mem_spares_fewer };

    fn len(&mut self, f: FileNo) -> Result<u64, Failed> {
        let stop = self.begin()?;
        let file = &self.files[usize::from(f.number())];
        let len = file.bytes().len() as u64;
        self.end(stop)?;
        Ok(len)
    }

    fn read(&mut self, f: FileNo, at: u64, buf: &mut [u8]) -> Result<(), Failed> {
        let stop = self.begin()?;
        let file = &self.files[usize::from(f.number())];
        let start = at as usize;
        buf.copy_from_slice(&file.bytes()[start..start + buf.len()]);
        self.end(stop)
    }

    fn reserve(&mut self, f: FileNo, upto: u64) -> Result<(), AllocError> {
        if upto > MAX_LEN {
            return Err(AllocError);
        }
        let file = &mut self.files[usize::from(f.number())];
        file.reserve(upto as usize)
    }

    fn write_at(&mut self, f: FileNo, at: u64, bytes: &[u8]) -> Result<(), Failed> {
        let stop = self.begin()?;
        self.put(f, at as usize, bytes);
        self.end(stop)
    }

    fn cut(&mut self, f: FileNo, len: u64) -> Result<(), Failed> {
        let stop = self.begin()?;
        self.shorten(f, len as usize);
        self.end(stop)
    }

    fn sync(&mut self, f: FileNo) -> Result<(), Failed> {
        match self.begin()? {
            None => {
                self.settle_one(f);
                Ok(())
            }
            // What is pending isn't settled.
            stop => self.end(stop),
        }
    }
}

fn format_files(alloc: Global) -> Result<Vec<MemFile>, AllocError>
    ensures len { IfOk result (λ files. vec_len files ≡ 4096) }
    ensures files { IfOk result (λ files. (k : ℕ) → image_at files.items k ≡ quiet (formatted_bytes k)) }
{
    let mut files = Vec::with_capacity(alloc, FILES)?;
    for number in 0..FILES {
        files.push(format_file(alloc, number)?)?;
    }
    Ok(files)
}

fn format_file(alloc: Global, number: usize) -> Result<MemFile, AllocError>
    ensures { IfOk result (λ file. file.images ≡ quiet (formatted_bytes number)) }
{
    let mut new = MemFile::new(alloc);
    if number < 4 {
        new.reserve(1)?;
        new.write_at(0, &[0]);
        new.settle(Outcome::Kept);
    }
    Ok(new)
}

fn settle_each(files: &mut [MemFile], outcome: Outcome)
    ensures images { (k : ℕ) → image_at files.new k ≡ settled outcome (image_at files.old k) }
    ensures room { (k : ℕ) → (slice_index_or files.old k nothing).room ≤ (slice_index_or files.new k nothing).room }
{
    for file in files.iter_mut() {
        file.settle(outcome);
    }
}
