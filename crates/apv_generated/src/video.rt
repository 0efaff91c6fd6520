//! A generated video, read as a planar file.
ghost use Rattle.std.specs.Prelude.{◌≡◌, ◌<◌, ◌≤◌, length};
ghost use Rattle.apv_encoding.specs.Generated.{generated_file};
ghost use Rattle.apv_files.specs.SlotView.{AfterRead, SlotView};
ghost use Rattle.apv_generated.specs.Views.{input_view};

use crate::bytes::push_picture;
use crate::format::GENERATED_FRAMES;
use apv_files::Failed;
use std::alloc::Global;

/// The video that is generated from a number, of which bytes were read as of a planar file.
#[derive(Drop)]
pub struct GeneratedVideo {
    seed: u32,
    /// The number of the picture after the one that is read.
    number: u32,
    /// The picture that is read.
    picture: Vec<u8>,
    /// The number of its bytes that are read.
    taken: usize,
    ghost within: { taken ≤ length picture.items },
    ghost few: { number ≤ 8 },
}

impl GeneratedVideo {
    ghost use base.Fml.{GName};
    ghost use Rattle.std.specs.Prelude.{◌+◌, OnOk, OnErr, [], drop};
    ghost use Rattle.apv_generated.specs.Video.{left_of};

    /// The whole video is left. It takes no memory yet.
    pub fn new(alloc: Global, seed: u32) -> GeneratedVideo
        ensures { left_of result ≡ generated_file seed }
    {
        GeneratedVideo {
            seed,
            number: 0,
            picture: Vec::new(alloc),
            taken: 0,
        }
    }

    /// Makes the next picture, where the one before it was read to its end. `Memory`: the same bytes are left as before.
    fn make_next(&mut self) -> Result<(), Failed>
        requires read { self.old.taken ≡ length self.old.picture.items }
        requires more { self.old.number < 8 }
        ensures left { left_of self.new ≡ left_of self.old }
        ensures next { OnOk result (self.new.number ≡ self.old.number + 1) }
        ensures memory { OnErr result (result ≡ Err Failed.Memory) }
    {
        self.taken = 0;
        self.picture.clear();
        match push_picture(self.seed, self.number, &mut self.picture) {
            Ok(()) => {
                self.number += 1;
                Ok(())
            }
            Err(_) => {
                self.picture.clear();
                Err(Failed::Memory)
            }
        }
    }

    /// Makes the next picture where all of the one before it was read, up to the last one.
    fn refill(&mut self) -> Result<(), Failed>
        ensures left { left_of self.new ≡ left_of self.old }
        ensures end { OnOk result (drop self.new.taken self.new.picture.items ≡ []
            → left_of self.new ≡ []) }
        ensures memory { OnErr result (result ≡ Err Failed.Memory) }
    {
        while self.taken == self.picture.len() {
            if self.number == GENERATED_FRAMES {
                return Ok(());
            }
            self.make_next()?;
        }
        Ok(())
    }

    /// Takes bytes from the start of what is left, at most as many as the buffer has, and returns their number, which is 0
    /// at the end alone. `Memory`: nothing was taken.
    pub(crate) fn read(&mut self, buf: &mut [u8]) -> Result<usize, Failed>
        requires { 0 < length buf.old }
        ensures { (name : GName) (beneath : SlotView)
            → AfterRead (input_view name beneath (left_of self.old)) result buf.new
            (input_view name beneath (left_of self.new)) }
    {
        self.refill()?;
        let left = &self.picture.as_slice()[self.taken..];
        let count = usize::min(left.len(), buf.len());
        buf[..count].copy_from_slice(&left[..count]);
        self.taken += count;
        Ok(count)
    }
}
