//! What a run holds besides its pending work.

use env_records::Envs;
use flow_frames::Frames;
use object_heap::Heap;

/// What a run holds besides its pending work, the lines that it printed and its turns.
#[derive(Drop)]
pub struct World<T> {
    pub frames: Frames<T>,
    pub heap: Heap<T>,
    pub records: Envs<T>,
    /// How many lines of each input channel were read.
    pub positions: Vec<usize>,
}
