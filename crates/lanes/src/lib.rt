// A network's state as a struct of arrays, and its queue store: a token put on a queue, and the oldest taken.
#![tactic(auto)]

ghost use Rattle.std.specs.Prelude.{◌≡◌, cond, ◌<◌, ltb, get_or};
ghost use Rattle.lanes.specs.Lanes.{push_cells, push_used, take_cells, take_used};

// What rules change. The queue store has 16 places for each queue, its oldest token first and zeros behind its last; then how many tokens each queue holds,
// each put rule's done flag by its queue, what each REG holds by its node, and each part's finished cycles.
// Arrays, since C sees them and nothing is allocated.
#[repr(C)]
#[derive(Clone, Copy)]
pub struct Network {
    pub cells: [u32; 8192],
    pub used: [u8; 512],
    pub flag: [bool; 512],
    pub held: [u32; 1024],
    pub count: [u32; 32],
}

impl Network {
    // Puts a token behind the last one of queue q; nothing where there is no such queue.
    pub fn push(&mut self, q: usize, x: u32)
        ensures { self.new ≡ record self.old { cells = cond (ltb q 512) (push_cells self.old.cells self.old.used q x) self.old.cells; used = cond (ltb q 512) (push_used self.old.used q) self.old.used } }
    {
        if q < 512 {
            let n = self.used[q] % 16;
            self.cells[q * 16 + n as usize] = x;
            self.used[q] = n + 1;
        }
    }

    // Moves the tokens of queue q up by one place, and clears the last.
    fn shift(&mut self, q: usize)
        requires { q < 512 }
        ensures { self.new ≡ record self.old { cells = take_cells self.old.cells q } }
    {
        let base = q * 16;
        self.cells.copy_within(base + 1..base + 16, base);
        self.cells[base + 15] = 0;
    }

    // Takes the oldest token of queue q; nothing where it holds none or there is no such queue.
    pub fn take(&mut self, q: usize)
        ensures { self.new ≡ record self.old { cells = cond (ltb q 512) (cond (ltb 0 (get_or self.old.used q 0)) (take_cells self.old.cells q) self.old.cells) self.old.cells; used = cond (ltb q 512) (cond (ltb 0 (get_or self.old.used q 0)) (take_used self.old.used q) self.old.used) self.old.used } }
    {
        if q < 512 {
            let n = self.used[q];
            if 0 < n {
                self.shift(q);
                self.used[q] = n - 1;
            }
        }
    }
}
