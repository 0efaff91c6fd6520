//! The trusted edge: real files, standard input, standard output and standard error. It tells no content.
ghost use Rattle.std.specs.Prelude.{◌≡◌, ◌<◌, ◌≤◌, None, length, IfOk, IfErr};
ghost use Rattle.apv_base.specs.declared.slot.Slot.{Slot};
ghost use Rattle.apv_files.specs.HostSlots.{host_slots_view};
ghost use Rattle.apv_files.specs.SlotView.{start_view, AllClosed, OnlyAt, AfterRead, AfterWrite};
ghost use Rattle.apv_files.specs.declared.files.Mode.{Mode};
ghost use Rattle.apv_files.specs.Stream.{is_standard as is_standard_lem, IsOpened, IsCreated};

use crate::host_slots::HostSlots;
use crate::slots::{SLOTS, index_of};
use crate::{Failed, Files, Slot};
use std::alloc::Global;
use std::io::{Read, Write};
use std::rt::Runtime;
use std::{fs, io};

/// What a slot is connected to:
///
/// - `Closed`: nothing.
/// - `File`: a file of the system.
/// - `Input`, `Output` and `Errors`: standard input, standard output and standard error.
#[derive(Drop)]
enum Stream<F> {
    Closed,
    File(F),
    Input,
    Output,
    Errors,
}

/// The files of the system that the program runs on. The name `-` is standard input on the slot `Input` and standard
/// output on the slot `Output`, and the console is standard error, which takes text alone. Reads and writes are passed
/// on without a buffer of its own, and a write of 0 bytes of a piece that isn't empty is a device fault.
#[derive(Drop)]
pub struct HostFiles<R: Runtime> {
    rt: R,
    alloc: Global,
    slots: HostSlots,
    input: R::Reader,
    streams: [Stream<R::File>; SLOTS],
}

impl<R: Runtime> HostFiles<R> {
    /// Each slot but the console is closed, and nothing has failed. It takes no memory yet.
    pub fn new(rt: R, alloc: Global) -> HostFiles<R>
        ensures views { (slot : Slot) →
            ⟦<HostFiles<R> as Files>⟧.slot_view result slot ≡ start_view None slot }
        ensures closed { AllClosed (⟦<HostFiles<R> as Files>⟧.slot_view result) }
    {
        let input = rt.reader();
        HostFiles {
            rt,
            alloc,
            slots: HostSlots::new(alloc),
            input,
            streams: [
                Stream::Closed,
                Stream::Closed,
                Stream::Closed,
                Stream::Closed,
                Stream::Closed,
                Stream::Closed,
                Stream::Closed,
                Stream::Closed,
                Stream::Closed,
                Stream::Errors,
            ],
        }
    }
}

/// Whether a name is that of a standard stream on a slot: `-` on `Input` and on `Output`.
fn is_standard(slot: Slot, name: &str) -> bool
    ensures { result ≡ is_standard_lem slot name.now }
{
    matches!(slot, Slot::Input | Slot::Output) && name == "-"
}

/// Connects a slot that reads to standard input where the name is `-` on `Input`, and else to the file of that name.
fn open_stream<R: Runtime>(rt: &R, slot: Slot, name: &str) -> io::Result<Stream<R::File>>
    ensures { IfOk result (IsOpened (is_standard_lem slot name.now)) }
{
    if is_standard(slot, name) {
        return Ok(Stream::Input);
    }
    Ok(Stream::File(fs::open(rt, name)?))
}

/// Connects a slot that writes to standard output where the name is `-` on `Output`, and else to a new file of that
/// name, in place of one that is there.
fn create_stream<R: Runtime>(rt: &R, slot: Slot, name: &str) -> io::Result<Stream<R::File>>
    ensures { IfOk result (IsCreated (is_standard_lem slot name.now)) }
{
    if is_standard(slot, name) {
        return Ok(Stream::Output);
    }
    Ok(Stream::File(fs::create(rt, name)?))
}

/// Reads into the buffer once, and returns how many bytes it begins with. `Unsupported` where nothing can be read.
fn read_stream<F: Read, I: Read>(
    stream: &mut Stream<F>,
    input: &mut I,
    buf: &mut [u8],
) -> io::Result<usize>
    ensures { IfOk result (λ n. n ≤ length buf.new) }
{
    match stream {
        Stream::File(file) => file.read(buf),
        Stream::Input => input.read(buf),
        Stream::Closed | Stream::Output | Stream::Errors => {
            Err(io::Error::from(io::ErrorKind::Unsupported))
        }
    }
}

/// Writes a text to standard error, the whole of it. `InvalidData` where the bytes aren't UTF-8.
fn write_errors<R: Runtime>(rt: &R, piece: &[u8]) -> io::Result<usize>
    ensures { IfOk result (λ n. n ≡ length piece.now) }
{
    let Ok(text) = str::from_utf8(piece) else {
        return Err(io::Error::from(io::ErrorKind::InvalidData));
    };
    rt.eprint(text)?;
    Ok(piece.len())
}

/// Writes a prefix of the piece once, and returns how many bytes it has. `WriteZero` where that is 0 and the piece
/// isn't empty, and `Unsupported` where nothing can be written.
fn write_stream<R: Runtime>(rt: &R, stream: &mut Stream<R::File>, piece: &[u8]) -> io::Result<usize>
    ensures fits { IfOk result (λ n. n ≤ length piece.now) }
    ensures some { IfOk result (λ n. 0 < length piece.now → 0 < n) }
{
    let count = match stream {
        Stream::File(file) => file.write(piece)?,
        Stream::Output => rt.write_some(piece)?,
        Stream::Errors => write_errors(rt, piece)?,
        Stream::Closed | Stream::Input => {
            return Err(io::Error::from(io::ErrorKind::Unsupported));
        }
    };
    if count == 0 && !piece.is_empty() {
        return Err(io::Error::from(io::ErrorKind::WriteZero));
    }
    Ok(count)
}

impl<R: Runtime> Files for HostFiles<R> {
    ghost use Rattle.apv_base.specs.model.Slot.{slot_number};
    ghost use Rattle.apv_files.specs.Bare.{host_slots-bare};

    ghost held = { λ files name. None };

    ghost slot_view = { λ files slot. host_slots_view files.slots slot };

    ghost bare_where_closed = { λ files slot.
        host_slots-bare files.slots.statuses (slot_number slot) };

    ghost console_is_writing = { λ files. files.slots.console };

    fn open(&mut self, slot: Slot, name: &str) -> Result<(), Failed> {
        let Ok(kept) = String::from_str(self.alloc, name) else {
            return Err(Failed::Memory);
        };
        let Ok(stream) = open_stream(&self.rt, slot, name) else {
            self.slots.count_open_fault(slot, kept);
            return Err(Failed::Device);
        };
        self.streams[index_of(slot)] = stream;
        self.slots.open(slot, kept);
        Ok(())
    }

    fn create(&mut self, slot: Slot, name: &str) -> Result<(), Failed> {
        let Ok(kept) = String::from_str(self.alloc, name) else {
            return Err(Failed::Memory);
        };
        let Ok(stream) = create_stream(&self.rt, slot, name) else {
            self.slots.count_open_fault(slot, kept);
            return Err(Failed::Device);
        };
        self.streams[index_of(slot)] = stream;
        self.slots.create(slot, kept);
        Ok(())
    }

    /// Reads once. It fails by the device, and nowhere else.
    fn read(&mut self, slot: Slot, buf: &mut [u8]) -> Result<usize, Failed>
        requires reading { (host_slots_view self.old.slots slot).mode ≡ Mode.Reading }
        requires room { 0 < length buf.old }
        ensures here { AfterRead (host_slots_view self.old.slots slot) result buf.new
            (host_slots_view self.new.slots slot) }
        ensures elsewhere { OnlyAt slot (host_slots_view self.old.slots)
            (host_slots_view self.new.slots) }
        ensures device { IfErr result (λ e. e ≡ Failed.Device) }
    {
        let HostFiles { input, streams, .. } = self;
        let stream = &mut streams[index_of(slot)];
        let Ok(count) = read_stream(stream, input, buf) else {
            self.slots.count_read_fault(slot);
            return Err(Failed::Device);
        };
        Ok(count)
    }

    /// Writes once. It fails by the device, and nowhere else.
    fn write(&mut self, slot: Slot, piece: &[u8]) -> Result<usize, Failed>
        requires { (host_slots_view self.old.slots slot).mode ≡ Mode.Writing }
        ensures here { AfterWrite (host_slots_view self.old.slots slot) piece.now result
            (host_slots_view self.new.slots slot) }
        ensures elsewhere { OnlyAt slot (host_slots_view self.old.slots)
            (host_slots_view self.new.slots) }
        ensures device { IfErr result (λ e. e ≡ Failed.Device) }
    {
        let HostFiles { rt, streams, .. } = self;
        let stream = &mut streams[index_of(slot)];
        let Ok(count) = write_stream(rt, stream, piece) else {
            self.slots.count_write_fault(slot);
            return Err(Failed::Device);
        };
        Ok(count)
    }
}
