// For each operand that crosses, the queue that it is read from.
ghost use Rattle.std.specs.Prelude.{◌≡◌};
ghost use Rattle.base.specs.Lists.{fill};
ghost use Rattle.netlist.specs.Netlists.{record_of};
ghost use Rattle.queues.specs.Found.{via_of};
ghost use Rattle.queues.specs.Pass.{Numbered};

impl crate::drawing::Drawing<'_> {
    // The queues of each node's operands. `Numbered` stands here and at `via`: a struct that has it as a ghost field would hold the drawing too, and `find_channels`
    // would have to promise that it is the same one.
    pub fn map_operands(&self, uses: &[crate::channels::Uses; 1024], queues: &mut crate::Queues)
        requires { Numbered self.now.net.now self.now.part.now uses.now }
        ensures { queues.new ≡ record queues.old { a = fill (λ i. via_of self.now.net.now self.now.part.now 0 i (record_of self.now.net.now i).a) self.now.net.now.nodes queues.old.a; b = fill (λ i. via_of self.now.net.now self.now.part.now 1 i (record_of self.now.net.now i).b) self.now.net.now.nodes queues.old.b; c = fill (λ i. via_of self.now.net.now self.now.part.now 2 i (record_of self.now.net.now i).c) self.now.net.now.nodes queues.old.c } }
    {
        for i in 0..self.net.nodes {
            let m = codes::operand_count(self.net.code[i]);
            let p = self.part[i];
            queues.a[i] = self
                .via(uses, 0 < m, self.net.a[i], p)
                .unwrap_or(crate::NONE);
            queues.b[i] = self
                .via(uses, 1 < m, self.net.b[i], p)
                .unwrap_or(crate::NONE);
            queues.c[i] = self
                .via(uses, 2 < m, self.net.c[i], p)
                .unwrap_or(crate::NONE);
        }
    }
}
