// The work buffers that a call is lent.
ghost use Rattle.std.specs.Prelude.{◌≡◌, ◌≤◌, length, take};
ghost use Rattle.buffers.specs.Room.{Roomy};

// Six work buffers, each with room for every curve of a span.
#[derive(Drop)]
pub struct Work<'a> {
    pub free: &'a mut [u32],
    pub sum: &'a mut [u32],
    pub part: &'a mut [u32],
    pub held: &'a mut [u32],
    pub running: &'a mut [u32],
    pub spare: &'a mut [u32],
    ghost roomy: { Roomy free.now sum.now part.now held.now running.now spare.now },
}

impl Work<'_> {
    ghost use Rattle.buffers.specs.Work.{Same, Cleared};

    // The first `count` free numbers. A part taken at the caller leaves only its length known.
    pub fn free_curve(&self, count: usize) -> &[u32]
        requires { count ≤ length self.now.free.now }
        ensures { result.now ≡ take count self.now.free.now }
    {
        &self.free[..count]
    }

    // The first `count` held numbers, as above.
    pub fn held_curve(&self, count: usize) -> &[u32]
        requires { count ≤ length self.now.held.now }
        ensures { result.now ≡ take count self.now.held.now }
    {
        &self.held[..count]
    }

    // Sets every number of the buffers to 0.
    pub fn clear(&mut self)
        ensures same { Same self.old self.new }
        ensures cleared { Cleared self.old self.new }
    {
        self.free.fill(0);
        self.sum.fill(0);
        self.part.fill(0);
        self.held.fill(0);
        self.running.fill(0);
        self.spare.fill(0);
    }
}
