// A netlist, and the checks 3 to 6 on it.
#![tactic(auto)]

ghost use Rattle.std.specs.Prelude.{◌≡◌, nat_le, position};
ghost use Rattle.base.specs.Checks.{verdict, judged};
ghost use Rattle.netlist.specs.Netlists.{no_net, record_of};
ghost use Rattle.netlist.specs.Checks.{numbers_good, records_check, net_checks};

// What a net sheet says. Node fields are one array each, and a netlist that was read has zeros past its counts.
// Arrays with counts beside them, since C sees them and nothing is allocated. No invariant on the counts: C writes any numbers, and check 3 refuses them.
#[repr(C)]
#[derive(Clone, Copy, Default)]
pub struct Netlist {
    pub nodes: usize,
    pub code: [u8; 1024],
    pub width: [u8; 1024],
    pub a: [u16; 1024],
    pub b: [u16; 1024],
    pub c: [u16; 1024],
    pub k: [u32; 1024],
    pub outputs: usize,
    pub output: [u16; 64],
    pub labels: usize,
    pub label: [u8; 4096],
}

// The netlist of zeros, which a refusal gives.
pub fn no_net() -> Netlist
    ensures { result ≡ no_net }
{
    Netlist::default()
}

// The record of node i; zeros past the last place, as the definition `record_of` says, so that it asks nothing of i.
pub fn record_of(net: &Netlist, i: usize) -> codes::Record
    ensures { result ≡ record_of net.now i }
{
    if i < 1024 {
        codes::Record {
            code: net.code[i],
            width: net.width[i],
            a: net.a[i],
            b: net.b[i],
            c: net.c[i],
            k: net.k[i],
        }
    } else {
        codes::NO_RECORD
    }
}

// Check 3: nodes, outputs and label bytes are within their numbers.
pub fn numbers_good(net: &Netlist) -> bool
    ensures { result ≡ numbers_good net.now }
{
    (1 <= net.nodes) & (net.nodes <= 1024) & (net.outputs <= 64) & (net.labels <= 4096)
}

// Check 4: the lowest record that breaks its rule.
fn bad_record(net: &Netlist) -> Option<usize>
    ensures { result ≡ records_check net.now }
{
    (0..net.nodes).find(|i| !codes::record_good(record_of(net, *i), *i, net.nodes, &net.width))
}

// Check 5: the lowest output that names no node.
fn bad_output(output: &[u16], nodes: usize) -> Option<usize>
    ensures { result ≡ position (λ x. nat_le nodes x) output.now }
{
    output.iter().position(|x| nodes <= *x as usize)
}

// The checks 3 to 6.
pub fn check_net(net: &Netlist) -> Result<(), base::Verdict>
    ensures { result ≡ judged (verdict (net_checks net.now)) }
{
    base::passed(3, base::whole(numbers_good(net)))?;
    base::passed(4, bad_record(net))?;
    base::passed(5, bad_output(&net.output[..net.outputs], net.nodes))?;
    base::passed(6, layout::check_labels(&net.label[..net.labels], net.nodes))
}
