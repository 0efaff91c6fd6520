//! Files whose input is a generated video.
ghost use Rattle.std.specs.Prelude.{◌≡◌, ℕ, ◌<◌, List, length, IsTrue};
ghost use Rattle.apv_base.specs.declared.slot.Slot.{Slot};
ghost use Rattle.apv_base.specs.declared.slot.Slot.TheVariants.{Input};
ghost use Rattle.apv_base.specs.model.Slot.{is_input, is_output, same_slot};
ghost use Rattle.apv_files.specs.declared.files.Mode.{Mode};
ghost use Rattle.apv_files.specs.SlotView.{OnlyAt, AfterOpen, AfterCreate, AfterRead, AfterWrite};

use crate::video::GeneratedVideo;
use apv_base::Slot;
use apv_files::{Failed, Files};

/// Whether a slot is that of the generated video.
fn is_generated(slot: Slot) -> bool
    ensures { result ≡ same_slot slot Input }
{
    match slot {
        Slot::Input => true,
        _ => false,
    }
}

/// Files over other ones, which they borrow: the slot `Input` reads the video that is generated from a number, as a
/// planar file, and all other slots are those of the borrowed files. No call reaches the borrowed files' own `Input`.
#[derive(Drop)]
pub struct GeneratedFiles<'a, F: Files> {
    files: &'a mut F,
    video: &'a mut GeneratedVideo,
}

impl<'a, F: Files> GeneratedFiles<'a, F> {
    ghost use Rattle.apv_generated.specs.Files.{borrowed, left_in, name_of_borrowed};
    ghost use Rattle.apv_generated.specs.Video.{left_of};

    /// What is left of the video is left of `Input`.
    pub fn new(video: &'a mut GeneratedVideo, files: &'a mut F) -> GeneratedFiles<'a, F>
        ensures borrowed { borrowed result ≡ files.old }
        ensures name { name_of_borrowed result ≡ files.entry.ghost_name }
        ensures left { left_in result ≡ left_of video.old }
    {
        GeneratedFiles { files, video }
    }
}

impl<F: Files> Files for GeneratedFiles<'_, F> {
    ghost use Rattle.apv_generated.specs.Files.{generated_held, generated_views};
    ghost use Rattle.apv_generated.specs.Bare.{bare-views};

    ghost held = { generated_held F.held };

    ghost slot_view = { generated_views F.slot_view };

    ghost bare_where_closed = { λ files slot. bare-views F.slot_view files slot
        (F.bare_where_closed files.files.now slot) };

    ghost console_is_writing = { λ files. F.console_is_writing files.files.now };

    /// Opens a file of the borrowed files.
    fn open(&mut self, slot: Slot, name: &str) -> Result<(), Failed>
        requires input { IsTrue (is_input slot) }
        requires closed { (generated_views F.slot_view self.old slot).mode ≡ Mode.Closed }
        ensures here { AfterOpen (generated_views F.slot_view self.old slot) name.now
            (generated_held F.held self.old name.now) result
            (generated_views F.slot_view self.new slot) }
        ensures elsewhere { OnlyAt slot (generated_views F.slot_view self.old)
            (generated_views F.slot_view self.new) }
        ensures held { (file : List ℕ) →
            generated_held F.held self.new file ≡ generated_held F.held self.old file }
    {
        self.files.open(slot, name)
    }

    /// Creates a file of the borrowed files.
    fn create(&mut self, slot: Slot, name: &str) -> Result<(), Failed>
        requires output { IsTrue (is_output slot) }
        requires closed { (generated_views F.slot_view self.old slot).mode ≡ Mode.Closed }
        ensures here { AfterCreate (generated_views F.slot_view self.old slot) name.now result
            (generated_views F.slot_view self.new slot) }
        ensures elsewhere { OnlyAt slot (generated_views F.slot_view self.old)
            (generated_views F.slot_view self.new) }
        ensures held { (file : List ℕ) →
            generated_held F.held self.new file ≡ generated_held F.held self.old file }
    {
        self.files.create(slot, name)
    }

    /// Takes bytes of the video, or of another slot of the borrowed files. Of the video it never fails by a device.
    fn read(&mut self, slot: Slot, buf: &mut [u8]) -> Result<usize, Failed>
        requires reading { (generated_views F.slot_view self.old slot).mode ≡ Mode.Reading }
        requires room { 0 < length buf.old }
        ensures here { AfterRead (generated_views F.slot_view self.old slot) result buf.new
            (generated_views F.slot_view self.new slot) }
        ensures elsewhere { OnlyAt slot (generated_views F.slot_view self.old)
            (generated_views F.slot_view self.new) }
        ensures held { (file : List ℕ) →
            generated_held F.held self.new file ≡ generated_held F.held self.old file }
    {
        if is_generated(slot) {
            return self.video.read(buf);
        }
        self.files.read(slot, buf)
    }

    /// Writes to the borrowed files.
    fn write(&mut self, slot: Slot, piece: &[u8]) -> Result<usize, Failed>
        requires { (generated_views F.slot_view self.old slot).mode ≡ Mode.Writing }
        ensures here { AfterWrite (generated_views F.slot_view self.old slot) piece.now result
            (generated_views F.slot_view self.new slot) }
        ensures elsewhere { OnlyAt slot (generated_views F.slot_view self.old)
            (generated_views F.slot_view self.new) }
        ensures held { (file : List ℕ) →
            generated_held F.held self.new file ≡ generated_held F.held self.old file }
    {
        self.files.write(slot, piece)
    }
}
