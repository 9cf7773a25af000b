// The queues of the inputs and of the outputs.
ghost use Rattle.std.specs.Prelude.{◌≡◌, ◌≤◌};
ghost use Rattle.base.specs.Lists.{fill};
ghost use Rattle.queues.specs.Queues.{inputs_of, outputs_of};
ghost use Rattle.queues.specs.Found.{input_of};
ghost use Rattle.queues.specs.Pass.{put_all};

const IN: u8 = 0x00;

// No part: an input's tokens come from outside, and an output's go there.
const OUTSIDE: u8 = 32;

impl crate::drawing::Drawing<'_> {
    // One queue for each IN, the first of all queues, and each IN's place.
    pub fn find_inputs(&self, queues: &mut crate::Queues)
        requires { queues.old.count ≡ 0 }
        ensures { queues.new ≡ record (put_all (inputs_of self.now.net.now self.now.part.now) queues.old) { input = fill (input_of self.now.net.now self.now.part.now) self.now.net.now.nodes queues.old.input } }
    {
        for i in 0..self.net.nodes {
            if self.net.code[i] == IN {
                queues.input[i] = queues.count as u16;
                queues.put(i as u16, OUTSIDE, self.part[i]);
            } else {
                queues.input[i] = crate::NONE;
            }
        }
    }

    // One queue for each output.
    pub fn find_outputs(&self, queues: &mut crate::Queues)
        requires { queues.old.count ≤ 33792 }
        ensures { queues.new ≡ put_all (outputs_of self.now.net.now self.now.part.now) queues.old }
    {
        let net = self.net;
        let part = self.part;
        for x in &net.output[..net.outputs] {
            let from = part.get(*x as usize).copied().unwrap_or(0);
            queues.put(*x, from, OUTSIDE);
        }
    }
}
