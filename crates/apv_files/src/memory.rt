//! Files in memory, which tell everything, and whose calls fail as they are set to.
ghost use Rattle.std.specs.Prelude.{◌≡◌, ◌≢◌, ℕ, ◌<◌, ◌≤◌, List, [], length, None, Some, Err, IsTrue};
ghost use Rattle.std.specs.Prelude.{IsOk, IsErr, IfOk, IfErr, OnOk, OnErr};
ghost use Rattle.std.specs.Bool.{OnTrue, OnFalse};
ghost use Rattle.apv_base.specs.declared.slot.Slot.{Slot};
ghost use Rattle.apv_base.specs.model.Slot.{slot_number, is_input, is_output};
ghost use Rattle.apv_files.specs.declared.files.Mode.{Mode};
ghost use Rattle.apv_files.specs.Calls.{CountsCall, SetsToFail, no_calls, write_call};
ghost use Rattle.apv_files.specs.Moved.{cut_to, TakesMost};
ghost use Rattle.apv_files.specs.SlotView.{start_view, AllClosed, OnlyAt, AfterOpen, AfterCreate};
ghost use Rattle.apv_files.specs.SlotView.{AfterRead, AfterWrite};

use crate::calls::Calls;
use crate::held_files::HeldFiles;
use crate::memory_slots::MemorySlots;
use crate::{Call, Failed, Files};
use apv_base::Slot;
use std::alloc::{AllocError, Global};

/// Files in memory: the outside of a test. It tells all that it holds, has left and has written. A call fails by the
/// device where it is set to by `fail`, or opens a name that isn't held, and nowhere else. A read or a write moves all
/// that it can, up to the maximum that `cut` sets.
#[derive(Drop)]
pub struct MemoryFiles {
    alloc: Global,
    files: HeldFiles,
    slots: MemorySlots,
    calls: Calls,
    most: Option<usize>,
    ghost moves: { (count : ℕ) → most ≡ Some count → 1 ≤ count },
}

impl MemoryFiles {
    ghost use Rattle.apv_files.specs.declared.calls.Call.{Call};
    ghost use Rattle.apv_files.specs.Memory.{memory_view, memory_held, memory_calls, memory_cut};

    /// No name is held, nothing is left, written or failed, each slot but the console is closed, no call is set to
    /// fail, and no maximum is set. It takes no memory yet.
    pub fn new(alloc: Global) -> MemoryFiles
        ensures views { (slot : Slot) → memory_view result slot ≡ start_view (Some []) slot }
        ensures closed { AllClosed (memory_view result) }
        ensures files { (name : List ℕ) → memory_held result name ≡ None }
        ensures calls { (call : Call) → memory_calls result call ≡ no_calls }
        ensures cut { memory_cut result ≡ None }
    {
        MemoryFiles {
            alloc,
            files: HeldFiles::new(alloc),
            slots: MemorySlots::new(alloc),
            calls: Calls::new(alloc),
            most: None,
        }
    }

    /// Holds a file of a name, in place of the content that it held of it before. No slot and no call changes, and
    /// after an error nothing does.
    pub fn hold(&mut self, name: &str, bytes: &[u8]) -> Result<(), AllocError>
        ensures views { (slot : Slot) → memory_view self.new slot ≡ memory_view self.old slot }
        ensures calls { (call : Call) → memory_calls self.new call ≡ memory_calls self.old call }
        ensures cut { memory_cut self.new ≡ memory_cut self.old }
        ensures held { OnOk result (memory_held self.new name.now ≡ Some bytes.now) }
        ensures others { (other : List ℕ) → other ≢ name.now →
            memory_held self.new other ≡ memory_held self.old other }
        ensures err { OnErr result ((other : List ℕ) →
            memory_held self.new other ≡ memory_held self.old other) }
    {
        self.files.hold(self.alloc, name, bytes)
    }

    /// Sets the call of a kind with a number to fail by the device. Calls of a kind are numbered from 0 over all slots,
    /// also those that failed, and a number that has come to the last value of `u64` stays there. Several calls may be
    /// set. No slot changes and no file, and after an error nothing does.
    pub fn fail(&mut self, call: Call, number: u64) -> Result<(), AllocError>
        ensures views { (slot : Slot) → memory_view self.new slot ≡ memory_view self.old slot }
        ensures held { (name : List ℕ) → memory_held self.new name ≡ memory_held self.old name }
        ensures cut { memory_cut self.new ≡ memory_cut self.old }
        ensures ok { OnOk result
            (SetsToFail call number (memory_calls self.old) (memory_calls self.new)) }
        ensures err { OnErr result ((kind : Call) →
            memory_calls self.new kind ≡ memory_calls self.old kind) }
    {
        self.calls.fail(call, number)
    }

    /// Sets the most bytes that one read or one write moves from now on, in place of a maximum that was set before. No
    /// slot changes, no file and no call.
    pub fn cut(&mut self, most: usize)
        requires { 1 ≤ most }
        ensures views { (slot : Slot) → memory_view self.new slot ≡ memory_view self.old slot }
        ensures held { (name : List ℕ) → memory_held self.new name ≡ memory_held self.old name }
        ensures calls { (call : Call) → memory_calls self.new call ≡ memory_calls self.old call }
        ensures cut { memory_cut self.new ≡ Some most }
    {
        self.most = Some(most);
    }

    /// How many of `count` bytes one call may move: at least one of some.
    fn allowed(&self, count: usize) -> usize
        ensures cut { result ≡ cut_to (memory_cut self.now) count }
        ensures some { 0 < count → 0 < result }
    {
        match self.most {
            Some(most) => most.min(count),
            None => count,
        }
    }

    /// The bytes not yet read of a slot: none of one that isn't reading.
    pub fn left(&self, slot: Slot) -> &[u8]
        ensures { (memory_view self.now slot).left ≡ Some result.now }
    {
        self.slots.left(slot)
    }

    /// The bytes written to a slot since it was created, and to the console since this was made: none of a slot that
    /// isn't writing.
    pub fn written(&self, slot: Slot) -> &[u8]
        ensures { (memory_view self.now slot).written ≡ Some result.now }
    {
        self.slots.written(slot)
    }
}

/// The kind of a write to a slot.
fn kind_of_write(slot: Slot) -> Call
    ensures { result ≡ write_call slot }
{
    match slot {
        Slot::Console => Call::Console,
        _ => Call::Write,
    }
}

impl Files for MemoryFiles {
    ghost use Rattle.apv_files.specs.Memory.{memory_view, memory_held, memory_calls, memory_fails, memory_cut};
    ghost use Rattle.apv_files.specs.Bare.{slots-bare};

    ghost held = { memory_held };

    ghost slot_view = { memory_view };

    ghost bare_where_closed = { λ files slot. slots-bare files.slots.slots (slot_number slot) };

    ghost console_is_writing = { λ files. files.slots.console };

    /// Opens a name that is held. `Device` comes where the next `Open` is set to fail or the name isn't held, unless
    /// memory runs out, and nowhere else.
    fn open(&mut self, slot: Slot, name: &str) -> Result<(), Failed>
        requires input { IsTrue (is_input slot) }
        requires closed { (memory_view self.old slot).mode ≡ Mode.Closed }
        ensures here { AfterOpen (memory_view self.old slot) name.now
            (memory_held self.old name.now) result (memory_view self.new slot) }
        ensures elsewhere { OnlyAt slot (memory_view self.old) (memory_view self.new) }
        ensures held { (file : List ℕ) → memory_held self.new file ≡ memory_held self.old file }
        ensures calls { CountsCall Call.Open (memory_calls self.old) (memory_calls self.new) }
        ensures cut { memory_cut self.new ≡ memory_cut self.old }
        ensures failing { OnTrue (memory_fails self.old Call.Open) (IsErr result) }
        ensures unheld { memory_held self.old name.now ≡ None → IsErr result }
        ensures device { OnFalse (memory_fails self.old Call.Open)
            (result ≡ Err Failed.Device → memory_held self.old name.now ≡ None) }
    {
        if self.calls.count(Call::Open) {
            return Err(self.slots.fail_open(self.alloc, slot, name));
        }
        let Some(content) = self.files.content(name) else {
            return Err(self.slots.fail_open(self.alloc, slot, name));
        };
        self.slots.open(self.alloc, slot, name, content)
    }

    /// Creates a file. `Device` comes where the next `Open` is set to fail, unless memory runs out, and nowhere else.
    fn create(&mut self, slot: Slot, name: &str) -> Result<(), Failed>
        requires output { IsTrue (is_output slot) }
        requires closed { (memory_view self.old slot).mode ≡ Mode.Closed }
        ensures here { AfterCreate (memory_view self.old slot) name.now result
            (memory_view self.new slot) }
        ensures elsewhere { OnlyAt slot (memory_view self.old) (memory_view self.new) }
        ensures held { (file : List ℕ) → memory_held self.new file ≡ memory_held self.old file }
        ensures calls { CountsCall Call.Open (memory_calls self.old) (memory_calls self.new) }
        ensures cut { memory_cut self.new ≡ memory_cut self.old }
        ensures failing { OnTrue (memory_fails self.old Call.Open) (IsErr result) }
        ensures memory { OnFalse (memory_fails self.old Call.Open)
            (IfErr result (λ e. e ≡ Failed.Memory)) }
    {
        if self.calls.count(Call::Open) {
            return Err(self.slots.fail_open(self.alloc, slot, name));
        }
        self.slots.create(self.alloc, slot, name)
    }

    /// Takes all that is left, or as much as the buffer has room for, up to the maximum that is set. It fails where the
    /// next `Read` is set to fail, by the device, and nowhere else.
    fn read(&mut self, slot: Slot, buf: &mut [u8]) -> Result<usize, Failed>
        requires reading { (memory_view self.old slot).mode ≡ Mode.Reading }
        requires room { 0 < length buf.old }
        ensures here { AfterRead (memory_view self.old slot) result buf.new
            (memory_view self.new slot) }
        ensures elsewhere { OnlyAt slot (memory_view self.old) (memory_view self.new) }
        ensures held { (file : List ℕ) → memory_held self.new file ≡ memory_held self.old file }
        ensures calls { CountsCall Call.Read (memory_calls self.old) (memory_calls self.new) }
        ensures cut { memory_cut self.new ≡ memory_cut self.old }
        ensures failing { OnTrue (memory_fails self.old Call.Read) (result ≡ Err Failed.Device) }
        ensures ok { OnFalse (memory_fails self.old Call.Read) (IsOk result) }
        ensures count { IfOk result (TakesMost (memory_cut self.old)
            (memory_view self.old slot).left (length buf.old)) }
    {
        if self.calls.count(Call::Read) {
            self.slots.fail_read(slot);
            return Err(Failed::Device);
        }
        let room = self.allowed(buf.len());
        Ok(self.slots.read(slot, &mut buf[..room]))
    }

    /// Appends the piece, up to the maximum that is set. `Device` comes where the next `Write`, or `Console` of the
    /// console, is set to fail, and nowhere else.
    fn write(&mut self, slot: Slot, piece: &[u8]) -> Result<usize, Failed>
        requires { (memory_view self.old slot).mode ≡ Mode.Writing }
        ensures here { AfterWrite (memory_view self.old slot) piece.now result
            (memory_view self.new slot) }
        ensures elsewhere { OnlyAt slot (memory_view self.old) (memory_view self.new) }
        ensures held { (file : List ℕ) → memory_held self.new file ≡ memory_held self.old file }
        ensures calls { CountsCall (write_call slot) (memory_calls self.old)
            (memory_calls self.new) }
        ensures cut { memory_cut self.new ≡ memory_cut self.old }
        ensures count { IfOk result (λ n. n ≡ cut_to (memory_cut self.old) (length piece.now)) }
        ensures failing { OnTrue (memory_fails self.old (write_call slot))
            (result ≡ Err Failed.Device) }
        ensures memory { OnFalse (memory_fails self.old (write_call slot))
            (IfErr result (λ e. e ≡ Failed.Memory)) }
    {
        if self.calls.count(kind_of_write(slot)) {
            self.slots.fail_write(slot);
            return Err(Failed::Device);
        }
        let count = self.allowed(piece.len());
        let (prefix, _) = piece.split_at(count);
        self.slots.write(slot, prefix)
    }
}
