// A frame of the machine: its cursor, its first cell and its length; cursor and start are absolute places.
// A cursor moves by value, or in place where the frame is lent, and a frame is read from and written to its record in a lent store.
// Every move is defined: a cursor that would pass the largest number is held there, and one that would pass 0 is held at 0.
#![tactic(auto)]

ghost use Rattle.std.specs.Prelude.{◌≡◌, get_or, set};
ghost use Rattle.scope.specs.Machine.{frame_from, forward, backward, reset};
ghost use Rattle.layout.specs.Mach.{no_frame, records_of};
ghost use Rattle.frame.specs.Cursor.{frame_of, held};
ghost use Rattle.frame.specs.Store.{with_records};

// Where the cursor stands, where the frame starts and how many cells it has.
#[derive(Drop)]
pub struct Frame {
    pub cursor: u32,
    pub start: u32,
    pub len: u32,
}

impl Frame {
    // A frame of so many cells from a place on, its cursor at its start.
    pub fn new(start: u32, len: u32) -> Self
        ensures { frame_of result ≡ frame_from start len }
    {
        Frame {
            cursor: start,
            start,
            len,
        }
    }

    // What a free record holds: zeros.
    pub fn none() -> Self
        ensures { frame_of result ≡ no_frame }
    {
        Frame::new(0, 0)
    }

    // The frame with its cursor n cells on.
    pub fn forwarded(mut self, n: u32) -> Self
        ensures { frame_of result ≡ held (forward n (frame_of self)) }
    {
        forward(&mut self, n);
        self
    }

    // The frame with its cursor n cells back.
    pub fn backed(mut self, n: u32) -> Self
        ensures { frame_of result ≡ backward n (frame_of self) }
    {
        backward(&mut self, n);
        self
    }

    // The frame with its cursor at its start.
    pub fn at_start(mut self) -> Self
        ensures { frame_of result ≡ reset (frame_of self) }
    {
        reset(&mut self);
        self
    }
}

// The cursor of a lent frame moved n cells on.
pub fn forward(f: &mut Frame, n: u32)
    ensures { frame_of f.new ≡ held (forward n (frame_of f.old)) }
{
    f.cursor = f.cursor.saturating_add(n);
}

// The cursor of a lent frame moved n cells back.
pub fn backward(f: &mut Frame, n: u32)
    ensures { frame_of f.new ≡ backward n (frame_of f.old) }
{
    f.cursor = f.cursor.saturating_sub(n);
}

// The cursor of a lent frame moved to its start.
pub fn reset(f: &mut Frame)
    ensures { frame_of f.new ≡ reset (frame_of f.old) }
{
    f.cursor = f.start;
}

// The cursor of a new frame after a move on and a move back, both in place.
pub fn cursor_after(start: u32, len: u32, on: u32, back: u32) -> u32
    ensures { result ≡ (backward back (held (forward on (frame_from start len)))).cursor }
{
    let mut f = Frame::new(start, len);
    forward(&mut f, on);
    backward(&mut f, back);
    f.cursor
}

// The frame of record k of a frame store; zeros past the last record.
pub fn record_at(frames: &[u32], k: usize) -> Frame
    ensures { frame_of result ≡ get_or (records_of frames.now) k no_frame }
{
    if frames.len() / limits::FRAME_NUMBERS <= k {
        return Frame::none();
    }
    let at = limits::FRAME_NUMBERS * k;
    Frame {
        cursor: frames[at],
        start: frames[at + 1],
        len: frames[at + 2],
    }
}

// Record k of a frame store set to a frame; nothing past the last record.
pub fn put_record(frames: &mut [u32], k: usize, f: Frame)
    ensures { frames.new ≡ with_records (set (records_of frames.old) k (frame_of f)) frames.old }
{
    if frames.len() / limits::FRAME_NUMBERS <= k {
        return;
    }
    let at = limits::FRAME_NUMBERS * k;
    frames[at] = f.cursor;
    frames[at + 1] = f.start;
    frames[at + 2] = f.len;
}
