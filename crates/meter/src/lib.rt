// The meter: docs/RULES.md, "Netlists". The depth of every wire, the AND and the MUX gates counted by depth,
// the netlist's depth and its multiplications. Judged 9, 8; the lists are the netlist, the depths and the
// levels.
#![tactic(auto)]

ghost use Rattle.std.specs.Prelude.{◌≡◌, map, ℕ, ◌+◌, ◌/◌, ◌≤◌, ◌<◌, max, length, get_or, take, drop, replicate, eqb};
ghost use Rattle.answer.specs.Fronts.{over};
ghost use Rattle.netlist.specs.Net.{at, dep_alg, max_of};
ghost use Rattle.netlist.specs.Words.{gates_of};
ghost use Rattle.netlist.specs.Check.{gate_limit};
ghost use Rattle.meter.specs.Levels.{one, spot_of, levels_below};
ghost use Rattle.meter.specs.Meter.{depths_answer, MeteredAs};
ghost use Rattle.meter.specs.InnerDepths.{depths_to, DepthsLent, MeasuredAs, PreparedAs};
ghost use Rattle.meter.specs.InnerLevels.{no_gates, tallied, gained, Stands, Tallies, Clears};

use answer::{Answer, Refusal};
use netlist::counts::counts_of;
use netlist::gate::{AND_KIND, MUX_KIND};
use netlist::{GATE_STRIDE, HEADER_WORDS};

// A level record: the AND gates and the MUX gates of one depth.
#[repr(C)]
#[derive(Clone, Copy, Debug, PartialEq, Eq)]
pub struct Level {
    pub ands: u32,
    pub muxes: u32,
}

const NO_GATES: Level = Level { ands: 0, muxes: 0 };

// The answer, with the netlist's depth and its multiplications. A struct and no Result, since the rules say what
// the two are on a refusal: both 0.
#[derive(Clone, Copy, Debug, PartialEq, Eq)]
pub struct Metered {
    pub answer: Answer,
    pub depth: u32,
    pub multiplications: u32,
}

// What the depths tell: the netlist's depth, and how many levels there are.
#[derive(Clone, Copy)]
struct Measured {
    depth: u32,
    levels: usize,
}

// At which level a gate is counted, and what it adds there and to the multiplications.
#[derive(Clone, Copy)]
struct Spot {
    at: usize,
    ands: u32,
    muxes: u32,
    multiplications: u32,
}

// The depth of a gate of the given kind whose operand words name wires of depth x, y and z. An unused one is
// 0, and wire 0 has depth 0, so that it does not count. Kinds 4 and 5, AND and MUX, are one deeper than their
// deepest operand; reckoned with the number and not branched on a Gate, since kinds come in no order.
fn gate_depth(kind: u32, x: u32, y: u32, z: u32) -> u32
    requires { (kind ≤ 5) × (max x (max y z) ≤ gate_limit) }
    ensures { result ≡ max x (max y z) + kind / 4 }
{
    x.max(y.max(z)) + kind / 4
}

// The gates' depths, after those of the inputs, where all depths stand at 0. inputs and gates are two of the netlist's
// counts, here and below as places of lists, and read once. That the netlist is accepted stands in `DepthsLent`, for
// this and the next function alone: a type of accepted netlists would serve no other here.
#[tactic(auto, using(crate::proofs::Depths::first_low, crate::proofs::Depths::second_low, crate::proofs::Depths::third_low))]
fn put_gates(net: &[u32], depths: &mut [u32], inputs: usize, gates: usize)
    requires { (DepthsLent net.now inputs gates depths.old) × (depths.old ≡ over (replicate (inputs + gates) 0) depths.old) }
    ensures { depths.new ≡ over (depths_to net.now gates) depths.old }
{
    for g in 0..gates {
        let at = HEADER_WORDS + GATE_STRIDE * g;
        let kind = net[at];
        let i = net[at + 1] as usize;
        let j = net[at + 2] as usize;
        let k = net[at + 3] as usize;
        let deep = gate_depth(kind, depths[i], depths[j], depths[k]);
        let wire = inputs + g;
        depths[wire] = deep;
    }
}

// The depths of all wires. The gates' stand at 0 too at first: wire 0 may be a gate, of which a gate's unused
// operand words read the depth.
fn put_depths(net: &[u32], depths: &mut [u32], inputs: usize, gates: usize)
    requires { DepthsLent net.now inputs gates depths.old }
    ensures { depths.new ≡ over (depths_to net.now gates) depths.old }
{
    depths[..inputs + gates].fill(0);
    put_gates(net, depths, inputs, gates);
}

// The largest of some depths, 0 of none. By a loop, as the next one: what the iterator's `max` promises is a pick by
// `cmp`, and no law at hand makes a number of that.
fn largest(depths: &[u32]) -> u32
    ensures { result ≡ max_of depths.now }
{
    let mut top: u32 = 0;
    for &depth in depths {
        top = top.max(depth);
    }
    top
}

// The largest depth over some output wires.
fn largest_output(wires: &[u32], depths: &[u32]) -> u32
    requires { (o : ℕ) → o < length wires.now → get_or wires.now o 0 < length depths.now }
    ensures { result ≡ max_of (map (at dep_alg depths.now) wires.now) }
{
    let mut top: u32 = 0;
    for &wire in wires {
        top = top.max(depths[wire as usize]);
    }
    top
}

// Rule 9, then 8 on the depth list, for which room words are lent.
#[tactic(auto, using(answer::proofs::Rows::stop, answer::proofs::Rows::go), unfolding(crate::specs::Meter::depths_answer))]
fn judge(net: &[u32], room: usize) -> Answer
    ensures { result ≡ depths_answer net.now room }
{
    netlist::check::check_as(net, 1)?;
    let c = counts_of(net);
    answer::room(room, c.inputs as usize + c.gates as usize, 2)
}

// Judges up to the depths, and fills them where that is done.
fn measure(net: &[u32], depths: &mut [u32]) -> Result<Measured, Refusal>
    ensures { MeasuredAs net.now depths.old result depths.new }
{
    judge(net, depths.len())?;
    let c = counts_of(net);
    let i = c.inputs as usize;
    let g = c.gates as usize;
    put_depths(net, depths, i, g);
    let top = largest(&depths[..i + g]);
    let deep = largest_output(&net[HEADER_WORDS + GATE_STRIDE * g..], depths);
    Ok(Measured {
        depth: deep,
        levels: top as usize + 1,
    })
}

// Judges all, the level list by its room, and fills the depths unless an earlier judge than that one refuses.
fn prepare(net: &[u32], depths: &mut [u32], room: usize) -> Result<Measured, Refusal>
    ensures { PreparedAs net.now depths.old room result depths.new }
{
    let measured = measure(net, depths)?;
    answer::room(room, measured.levels, 3)?;
    Ok(measured)
}

// What gate g adds, and where. Its kind is compared as a number and not taken as a Gate, since kinds come in no order.
fn spot_of(net: &[u32], depths: &[u32], inputs: usize, g: usize) -> Spot
    requires { Stands net.now depths.now inputs g }
    ensures { result ≡ spot_of net.now depths.now g }
{
    let at = depths[inputs + g] as usize;
    let kind = net[HEADER_WORDS + GATE_STRIDE * g];
    let a = u32::from(kind == AND_KIND);
    let m = u32::from(kind == MUX_KIND);
    Spot {
        at,
        ands: a,
        muxes: m,
        multiplications: a + m,
    }
}

// Counts the gates where their spots are, in one pass over levels that stand at 0, and sums up what multiplies.
fn tally(net: &[u32], depths: &[u32], levels: &mut [Level], inputs: usize, gates: usize) -> u32
    requires { Tallies net.now depths.now inputs gates levels.old }
    ensures { (result ≡ gained (spot_of net.now depths.now) gates) × (levels.new ≡ tallied (spot_of net.now depths.now) gates levels.old) }
{
    let mut n: u32 = 0;
    for g in 0..gates {
        let s = spot_of(net, depths, inputs, g);
        let at = s.at;
        levels[at].ands += s.ands;
        levels[at].muxes += s.muxes;
        n += s.multiplications;
    }
    n
}

// Level records cleared and counted, and what multiplies.
fn put_levels(net: &[u32], depths: &[u32], levels: &mut [Level]) -> u32
    requires { Clears net.now depths.now (length levels.old) }
    ensures multiply { result ≡ gained (spot_of net.now depths.now) (gates_of net.now) }
    ensures counts { levels.new ≡ levels_below (spot_of net.now depths.now) (gates_of net.now) (length levels.old) }
{
    let c = counts_of(net);
    levels.fill(NO_GATES);
    tally(net, depths, levels, c.inputs as usize, c.gates as usize)
}

// A refusal leaves no gate to count and no level to write: the list stays as it is.
pub fn meter(net: &[u32], depths: &mut [u32], levels: &mut [Level]) -> Metered
    ensures { MeteredAs net.now depths.old levels.old result depths.new levels.new }
{
    match prepare(net, depths, levels.len()) {
        Ok(measured) => {
            let multiplications = put_levels(net, depths, &mut levels[..measured.levels]);
            Metered {
                answer: Ok(()),
                depth: measured.depth,
                multiplications,
            }
        }
        Err(refusal) => Metered {
            answer: Err(refusal),
            depth: 0,
            multiplications: 0,
        },
    }
}
