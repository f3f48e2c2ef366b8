//! The sizes of a world.
ghost use Rattle.std.specs.Prelude.{◌≡◌, ◌↔◌, IsOk, IfOk, IsTrue};
ghost use Rattle.warm_stamps.specs.declared.TheConstants.{MAX_REPLICAS};
ghost use Rattle.warm_rank.specs.declared.TheConstants.{MAX_FRAMES};
ghost use Rattle.warm_refbuffer.specs.declared.TheConstants.{MAX_CAPACITY};
ghost use Rattle.warm_devices.specs.declared.TheConstants.{MAX_PAGE_SIZE};
ghost use Rattle.warm_world.specs.declared.TheConstants.{MAX_WORKERS};
ghost use Rattle.warm_world.specs.Limits.{IsWithin};
ghost use Rattle.warm_world.specs.Sizes.{IsSetup};

use crate::MAX_WORKERS;
use std::marker::Model;
use thiserror::Error;
use warm_devices::MAX_PAGE_SIZE;
use warm_rank::MAX_FRAMES;
use warm_refbuffer::MAX_CAPACITY;
use warm_stamps::MAX_REPLICAS;

/// The sizes of a world. Contracts see `Sizes`, the five numbers, each within its limits.
#[derive(Clone, Copy, Debug, PartialEq, Eq)]
pub struct Setup {
    replicas: u16,
    workers: u16,
    buffer: u16,
    frames: u32,
    page_size: u32,
}

impl Model for Setup {
    ghost use Rattle.warm_world.specs.Sizes.{Sizes, IsSetup};

    ghost Value = { Sizes };

    ghost view = { λ s. record {
      replicas = s.replicas;
      workers = s.workers;
      buffer = s.buffer;
      frames = s.frames;
      page_size = s.page_size;
    } };

    ghost invariant = { λ s. IsSetup (record {
      replicas = s.replicas;
      workers = s.workers;
      buffer = s.buffer;
      frames = s.frames;
      page_size = s.page_size;
    }) };

    ghost inverse = { λ s. record {
      replicas = s.replicas;
      workers = s.workers;
      buffer = s.buffer;
      frames = s.frames;
      page_size = s.page_size;
    } };
}

/// One of the numbers is outside its limits.
#[derive(Clone, Copy, Debug, PartialEq, Eq, Error)]
#[error("BadSetup")]
pub struct BadSetup;

fn is_within(most: usize, n: usize) -> bool
    ensures { IsTrue result ↔ IsWithin most n }
{
    1 <= n && n <= most
}

impl Setup {
    /// A setup of the numbers of `replicas` (1 to [`MAX_REPLICAS`]), of `workers` of each (1 to
    /// [`MAX_WORKERS`]), of references that the `buffer` of a worker holds (1 to [`MAX_CAPACITY`]),
    /// of `frames` of each replica's pool (1 to [`MAX_FRAMES`]), and of bytes of a page
    /// (`page_size`, 1 to [`MAX_PAGE_SIZE`]). `BadSetup` occurs exactly if one of them is
    /// outside these limits.
    pub fn new(
        replicas: u16,
        workers: u16,
        buffer: u16,
        frames: u32,
        page_size: u32,
    ) -> Result<Setup, BadSetup>
        ensures taken { IsOk result ↔ IsSetup (record {
          replicas = replicas;
          workers = workers;
          buffer = buffer;
          frames = frames;
          page_size = page_size;
        }) }
        ensures value { IfOk result (λ setup. setup ≡ record {
          replicas = replicas;
          workers = workers;
          buffer = buffer;
          frames = frames;
          page_size = page_size;
        }) }
    {
        if is_within(MAX_REPLICAS as usize, replicas as usize)
            && is_within(MAX_WORKERS as usize, workers as usize)
            && is_within(MAX_CAPACITY, buffer as usize)
            && is_within(MAX_FRAMES, frames as usize)
            && is_within(MAX_PAGE_SIZE, page_size as usize)
        {
            return Ok(Setup {
                replicas,
                workers,
                buffer,
                frames,
                page_size,
            });
        }
        Err(BadSetup)
    }

    /// How many replicas there are: 1 to [`MAX_REPLICAS`].
    pub fn replicas(self) -> u16
        ensures value { result ≡ self.replicas }
        ensures limits { IsWithin MAX_REPLICAS result }
    {
        self.replicas
    }

    /// How many workers each replica has: 1 to [`MAX_WORKERS`].
    pub fn workers(self) -> u16
        ensures value { result ≡ self.workers }
        ensures limits { IsWithin MAX_WORKERS result }
    {
        self.workers
    }

    /// How many references the buffer of a worker holds: 1 to [`MAX_CAPACITY`].
    pub fn buffer(self) -> u16
        ensures value { result ≡ self.buffer }
        ensures limits { IsWithin MAX_CAPACITY result }
    {
        self.buffer
    }

    /// How many frames the pool of each replica has: 1 to [`MAX_FRAMES`].
    pub fn frames(self) -> u32
        ensures value { result ≡ self.frames }
        ensures limits { IsWithin MAX_FRAMES result }
    {
        self.frames
    }

    /// How many bytes a page has: 1 to [`MAX_PAGE_SIZE`].
    pub fn page_size(self) -> u32
        ensures value { result ≡ self.page_size }
        ensures limits { IsWithin MAX_PAGE_SIZE result }
    {
        self.page_size
    }
}
