// The public calls, exported for the tests and the demonstration. Lists pass as a pointer and a length, an answer as its
// number, list and place: 0, 0, 0 for done. The structs stand as C reads them, so those three are repeated in each.
#![tactic(auto)]

ghost use Rattle.std.specs.Prelude.{◌≡◌, length};
ghost use Rattle.netlist.specs.Check.{net_answer};
ghost use Rattle.cells.specs.Cells.{one_hot_net, threshold_net};
ghost use Rattle.emit.specs.Emit.{one_hot_answer, threshold_answer, decipher_net, wiring_answer, decipher_answer, sized_by};
ghost use Rattle.records.specs.File.{check_answer};
ghost use Rattle.records.specs.declared.form.Form.TheVariants.{Full};
ghost use Rattle.port.specs.Layout.{port_of, port_made, fields_answer, found_by};
ghost use Rattle.sequence.specs.Files.{file_answer};
ghost use Rattle.probe.specs.Replies.{reply_of, metering_of, sizing_of, EvaluateReply, MeterReply, GlueReply, ChooseReply, KeystreamReply, CipherReply, EmitReply, ScoreReply, ReadReply, WriteReply, printout_of, PrintReply, AppendReply, AppendAfterReply, FramesReply, fielding_of, putting_of, bits_left};

use answer::{Answer, Refusal};
use emit::Size;
use meter::{Level, Metered};
use port::{Field, Port};

#[repr(C)]
#[derive(Clone, Copy)]
pub struct Reply {
    pub number: u32,
    pub list: u32,
    pub place: usize,
}

#[repr(C)]
#[derive(Clone, Copy)]
pub struct Metering {
    pub number: u32,
    pub list: u32,
    pub place: usize,
    pub depth: u32,
    pub multiplications: u32,
}

// The length of a text, 0 on a refusal.
#[repr(C)]
#[derive(Clone, Copy)]
pub struct Printout {
    pub number: u32,
    pub list: u32,
    pub place: usize,
    pub size: usize,
}

// How many gates and words a netlist has, both 0 on a refusal.
#[repr(C)]
#[derive(Clone, Copy)]
pub struct Sizing {
    pub number: u32,
    pub list: u32,
    pub place: usize,
    pub gates: usize,
    pub words: usize,
}

// A port's fields, all 0 on a refusal.
#[repr(C)]
#[derive(Clone, Copy)]
pub struct Fielding {
    pub number: u32,
    pub list: u32,
    pub place: usize,
    pub port: u32,
    pub admin: u32,
    pub link: u32,
    pub errors: u32,
    pub load: u32,
}

// An answer, and which field's value is too large: 0 for none.
#[repr(C)]
#[derive(Clone, Copy)]
pub struct Putting {
    pub number: u32,
    pub list: u32,
    pub place: usize,
    pub field: u32,
}

impl From<Answer> for Reply {
    ghost from_gives = { λ answer reply. reply ≡ reply_of answer };

    #[tactic(auto, unfolding(crate::specs::Replies::reply_of))]
    fn from(answer: Answer) -> Reply {
        match answer {
            Ok(()) => Reply {
                number: 0,
                list: 0,
                place: 0,
            },
            Err(e) => Reply {
                number: u32::from(e.reason),
                list: e.list,
                place: e.place,
            },
        }
    }
}

pub fn probe_check(net: &[u32]) -> Reply
    ensures { result ≡ reply_of (net_answer 1 net.now) }
{
    netlist::check::check(net).into()
}

pub fn probe_evaluate(net: &[u32], inputs: &[u8], values: &mut [u8], outputs: &mut [u8]) -> Reply
    ensures { EvaluateReply net.now inputs.now values.old outputs.old result values.new outputs.new }
{
    evaluate::evaluate(net, inputs, values, outputs).into()
}

impl From<Metered> for Metering {
    ghost from_gives = { λ metered metering. metering ≡ metering_of metered };

    #[tactic(auto, unfolding(crate::specs::Replies::reply_of, crate::specs::Replies::metering_of))]
    fn from(metered: Metered) -> Metering {
        let r = Reply::from(metered.answer);
        Metering {
            number: r.number,
            list: r.list,
            place: r.place,
            depth: metered.depth,
            multiplications: metered.multiplications,
        }
    }
}

pub fn probe_meter(net: &[u32], depths: &mut [u32], levels: &mut [Level]) -> Metering
    ensures { MeterReply net.now depths.old levels.old result depths.new levels.new }
{
    meter::meter(net, depths, levels).into()
}

pub fn probe_glue(first: &[u32], second: &[u32], out: &mut [u32]) -> Reply
    ensures { GlueReply first.now second.now out.old result out.new }
{
    glue::glue(first, second, out).into()
}

pub fn probe_choose(instance: u32, draws: &[u32], row: &mut [u32]) -> Reply
    ensures { ChooseReply instance draws.now row.old result row.new }
{
    choice::choose(instance, draws, row).into()
}

pub fn probe_keystream(
    instance: u32,
    m: u32,
    key: &[u8],
    indices: &[u32],
    whitening: &[u8],
    res: &mut [u8],
) -> Reply
    ensures { KeystreamReply instance m key.now indices.now whitening.now res.old result res.new }
{
    cipher::keystream(instance, m, key, indices, whitening, res).into()
}

pub fn probe_encipher(
    instance: u32,
    m: u32,
    key: &[u8],
    record: &[u8],
    indices: &[u32],
    whitening: &[u8],
    res: &mut [u8],
) -> Reply
    ensures { CipherReply instance m key.now «record».now indices.now whitening.now res.old result res.new }
{
    cipher::encipher(instance, m, key, record, indices, whitening, res).into()
}

pub fn probe_decipher(
    instance: u32,
    m: u32,
    key: &[u8],
    record: &[u8],
    indices: &[u32],
    whitening: &[u8],
    res: &mut [u8],
) -> Reply
    ensures { CipherReply instance m key.now «record».now indices.now whitening.now res.old result res.new }
{
    cipher::decipher(instance, m, key, record, indices, whitening, res).into()
}

pub fn probe_emit_one_hot(n: u32, res: &mut [u32]) -> Reply
    ensures { EmitReply (one_hot_answer n (length res.old)) (one_hot_net n) res.old result res.new }
{
    emit::emit_one_hot(n, res).into()
}

pub fn probe_emit_threshold(d: u32, n: u32, res: &mut [u32]) -> Reply
    ensures { EmitReply (threshold_answer d n (length res.old)) (threshold_net d n) res.old result res.new }
{
    emit::emit_threshold(d, n, res).into()
}

pub fn probe_emit_decipher(
    instance: u32,
    m: u32,
    indices: &[u32],
    whitening: &[u8],
    res: &mut [u32],
) -> Reply
    ensures { EmitReply (decipher_answer instance m indices.now whitening.now (length res.old)) (decipher_net instance m indices.now whitening.now) res.old result res.new }
{
    emit::emit_decipher(instance, m, indices, whitening, res).into()
}

impl From<Result<Size, Refusal>> for Sizing {
    ghost from_gives = { λ sized sizing. sizing ≡ sizing_of sized };

    #[tactic(auto, unfolding(crate::specs::Replies::sizing_of))]
    fn from(sized: Result<Size, Refusal>) -> Sizing {
        match sized {
            Ok(size) => Sizing {
                number: 0,
                list: 0,
                place: 0,
                gates: size.gates,
                words: size.words,
            },
            Err(e) => Sizing {
                number: u32::from(e.reason),
                list: e.list,
                place: e.place,
                gates: 0,
                words: 0,
            },
        }
    }
}

pub fn probe_decipher_size(instance: u32, m: u32, indices: &[u32], whitening: &[u8]) -> Sizing
    ensures { result ≡ sizing_of (sized_by (wiring_answer instance m indices.now whitening.now) (decipher_net instance m indices.now whitening.now)) }
{
    emit::decipher_size(instance, m, indices, whitening).into()
}

pub fn probe_score(
    instance: u32,
    m: u32,
    key: &[u8],
    record: &[u8],
    indices: &[u32],
    whitening: &[u8],
    scoring: &[u32],
    enciphered: &mut [u8],
    deciphering: &mut [u32],
    glued: &mut [u32],
    inputs: &mut [u8],
    wires: &mut [u8],
    scores: &mut [u8],
) -> Reply
    ensures { ScoreReply instance m key.now «record».now indices.now whitening.now scoring.now enciphered.old deciphering.old glued.old inputs.old wires.old scores.old result enciphered.new deciphering.new glued.new inputs.new wires.new scores.new }
{
    path::score(
        instance,
        m,
        key,
        record,
        indices,
        whitening,
        scoring,
        enciphered,
        deciphering,
        glued,
        inputs,
        wires,
        scores,
    )
    .into()
}

pub fn probe_read_file(source: &[u8], res: &mut [u32]) -> Reply
    ensures { ReadReply source.now res.old result res.new }
{
    file::read_file(source, res).into()
}

pub fn probe_write_file(net: &[u32], res: &mut [u8]) -> Reply
    ensures { WriteReply net.now res.old result res.new }
{
    file::write_file(net, res).into()
}

pub fn probe_check_file(source: &[u8]) -> Reply
    ensures { result ≡ reply_of (check_answer Full source.now) }
{
    file::check_file(source).into()
}

impl From<Result<usize, Refusal>> for Printout {
    ghost from_gives = { λ printed printout. printout ≡ printout_of printed };

    #[tactic(auto, unfolding(crate::specs::Replies::printout_of))]
    fn from(printed: Result<usize, Refusal>) -> Printout {
        match printed {
            Ok(size) => Printout {
                number: 0,
                list: 0,
                place: 0,
                size,
            },
            Err(e) => Printout {
                number: u32::from(e.reason),
                list: e.list,
                place: e.place,
                size: 0,
            },
        }
    }
}

pub fn probe_print(input: &[u8], res: &mut [u8]) -> Printout
    ensures { PrintReply input.now res.old result res.new }
{
    text::print_text(input, res).into()
}

pub fn probe_append(key: &[u8], record: &[u8], iv: &[u8], file: &[u8], frame: &mut [u8]) -> Reply
    ensures { AppendReply key.now «record».now iv.now file.now frame.old result frame.new }
{
    frames::append(key, record, iv, file, frame).into()
}

pub fn probe_append_after(
    key: &[u8],
    record: &[u8],
    iv: &[u8],
    last: &[u8],
    frame: &mut [u8],
) -> Reply
    ensures { AppendAfterReply key.now «record».now iv.now last.now frame.old result frame.new }
{
    frames::append_after(key, record, iv, last, frame).into()
}

pub fn probe_read_frames(key: &[u8], file: &[u8], records: &mut [u8]) -> Reply
    ensures { FramesReply key.now file.now records.old result records.new }
{
    frames::read(key, file, records).into()
}

pub fn probe_check_frames(file: &[u8]) -> Reply
    ensures { result ≡ reply_of (file_answer 1 file.now) }
{
    frames::check(file).into()
}

impl From<Result<Port, Refusal>> for Fielding {
    ghost from_gives = { λ found fielding. fielding ≡ fielding_of found };

    #[tactic(auto, unfolding(crate::specs::Replies::fielding_of))]
    fn from(found: Result<Port, Refusal>) -> Fielding {
        match found {
            Ok(port) => Fielding {
                number: 0,
                list: 0,
                place: 0,
                port: port.number(),
                admin: port.admin_up(),
                link: port.link_up(),
                errors: port.errors(),
                load: port.load(),
            },
            Err(e) => Fielding {
                number: u32::from(e.reason),
                list: e.list,
                place: e.place,
                port: 0,
                admin: 0,
                link: 0,
                errors: 0,
                load: 0,
            },
        }
    }
}

pub fn probe_fields(bits: &[u8]) -> Fielding
    ensures { result ≡ fielding_of (found_by (fields_answer bits.now) (port_of bits.now)) }
{
    port::fields(bits).into()
}

#[tactic(auto, unfolding(crate::specs::Replies::reply_of, crate::specs::Replies::putting_of, crate::specs::Replies::bits_left))]
pub fn probe_bits(
    port: u32,
    admin: u32,
    link: u32,
    errors: u32,
    load: u32,
    res: &mut [u8],
) -> Putting
    ensures { (result ≡ putting_of (port_made port admin link errors load) (length res.old)) × (res.new ≡ bits_left (port_made port admin link errors load) res.old) }
{
    let made = Port::new(port, admin, link, errors, load);
    match made {
        Err(field) => Putting {
            number: 0,
            list: 0,
            place: 0,
            field: u32::from(field),
        },
        Ok(p) => {
            let reply = Reply::from(port::bits(p, res));
            Putting {
                number: reply.number,
                list: reply.list,
                place: reply.place,
                field: 0,
            }
        }
    }
}
