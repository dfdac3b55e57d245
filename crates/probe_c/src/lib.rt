// The calls of crate `probe` as a static library for C, for the tests and the demonstration. Each call is that of `probe`.
#![tactic(auto)]

ghost use Rattle.std.specs.Prelude.{◌≡◌, length};
ghost use Rattle.netlist.specs.Check.{net_answer};
ghost use Rattle.cells.specs.Cells.{one_hot_net, threshold_net};
ghost use Rattle.emit.specs.Emit.{one_hot_answer, threshold_answer, decipher_net, wiring_answer, decipher_answer, sized_by};
ghost use Rattle.records.specs.File.{check_answer};
ghost use Rattle.records.specs.declared.form.Form.TheVariants.{Full};
ghost use Rattle.port.specs.Layout.{port_of, port_made, fields_answer, found_by};
ghost use Rattle.sequence.specs.Files.{file_answer};
ghost use Rattle.probe.specs.Replies.{reply_of, sizing_of, EvaluateReply, MeterReply, GlueReply, ChooseReply, KeystreamReply, CipherReply, EmitReply, ScoreReply, ReadReply, WriteReply, PrintReply, AppendReply, AppendAfterReply, FramesReply, fielding_of, putting_of, bits_left};

use meter::Level;
use probe::{Fielding, Metering, Printout, Putting, Reply, Sizing};

#[unsafe(no_mangle)]
pub extern "C" fn probe_check(net: &[u32]) -> Reply
    ensures { result ≡ reply_of (net_answer 1 net.now) }
{
    probe::probe_check(net)
}

#[unsafe(no_mangle)]
pub extern "C" fn probe_evaluate(
    net: &[u32],
    inputs: &[u8],
    values: &mut [u8],
    outputs: &mut [u8],
) -> Reply
    ensures { EvaluateReply net.now inputs.now values.old outputs.old result values.new outputs.new }
{
    probe::probe_evaluate(net, inputs, values, outputs)
}

#[unsafe(no_mangle)]
pub extern "C" fn probe_meter(net: &[u32], depths: &mut [u32], levels: &mut [Level]) -> Metering
    ensures { MeterReply net.now depths.old levels.old result depths.new levels.new }
{
    probe::probe_meter(net, depths, levels)
}

#[unsafe(no_mangle)]
pub extern "C" fn probe_glue(first: &[u32], second: &[u32], out: &mut [u32]) -> Reply
    ensures { GlueReply first.now second.now out.old result out.new }
{
    probe::probe_glue(first, second, out)
}

#[unsafe(no_mangle)]
pub extern "C" fn probe_choose(instance: u32, draws: &[u32], row: &mut [u32]) -> Reply
    ensures { ChooseReply instance draws.now row.old result row.new }
{
    probe::probe_choose(instance, draws, row)
}

#[unsafe(no_mangle)]
pub extern "C" fn probe_keystream(
    instance: u32,
    m: u32,
    key: &[u8],
    indices: &[u32],
    whitening: &[u8],
    res: &mut [u8],
) -> Reply
    ensures { KeystreamReply instance m key.now indices.now whitening.now res.old result res.new }
{
    probe::probe_keystream(instance, m, key, indices, whitening, res)
}

#[unsafe(no_mangle)]
pub extern "C" fn probe_encipher(
    instance: u32,
    m: u32,
    key: &[u8],
    record: &[u8],
    indices: &[u32],
    whitening: &[u8],
    res: &mut [u8],
) -> Reply
    ensures { CipherReply instance m key.now «record».now indices.now whitening.now res.old result res.new }
{
    probe::probe_encipher(instance, m, key, record, indices, whitening, res)
}

#[unsafe(no_mangle)]
pub extern "C" fn probe_decipher(
    instance: u32,
    m: u32,
    key: &[u8],
    record: &[u8],
    indices: &[u32],
    whitening: &[u8],
    res: &mut [u8],
) -> Reply
    ensures { CipherReply instance m key.now «record».now indices.now whitening.now res.old result res.new }
{
    probe::probe_decipher(instance, m, key, record, indices, whitening, res)
}

#[unsafe(no_mangle)]
pub extern "C" fn probe_emit_one_hot(n: u32, res: &mut [u32]) -> Reply
    ensures { EmitReply (one_hot_answer n (length res.old)) (one_hot_net n) res.old result res.new }
{
    probe::probe_emit_one_hot(n, res)
}

#[unsafe(no_mangle)]
pub extern "C" fn probe_emit_threshold(d: u32, n: u32, res: &mut [u32]) -> Reply
    ensures { EmitReply (threshold_answer d n (length res.old)) (threshold_net d n) res.old result res.new }
{
    probe::probe_emit_threshold(d, n, res)
}

#[unsafe(no_mangle)]
pub extern "C" fn probe_emit_decipher(
    instance: u32,
    m: u32,
    indices: &[u32],
    whitening: &[u8],
    res: &mut [u32],
) -> Reply
    ensures { EmitReply (decipher_answer instance m indices.now whitening.now (length res.old)) (decipher_net instance m indices.now whitening.now) res.old result res.new }
{
    probe::probe_emit_decipher(instance, m, indices, whitening, res)
}

#[unsafe(no_mangle)]
pub extern "C" fn probe_decipher_size(
    instance: u32,
    m: u32,
    indices: &[u32],
    whitening: &[u8],
) -> Sizing
    ensures { result ≡ sizing_of (sized_by (wiring_answer instance m indices.now whitening.now) (decipher_net instance m indices.now whitening.now)) }
{
    probe::probe_decipher_size(instance, m, indices, whitening)
}

#[unsafe(no_mangle)]
pub extern "C" fn probe_score(
    instance: u32,
    m: u32,
    key: &[u8],
    record: &[u8],
    indices: &[u32],
    whitening: &[u8],
    scoring: &[u32],
    enciphered: &mut [u8],
    deciphering: &mut [u32],
    glued: &mut [u32],
    inputs: &mut [u8],
    wires: &mut [u8],
    scores: &mut [u8],
) -> Reply
    ensures { ScoreReply instance m key.now «record».now indices.now whitening.now scoring.now enciphered.old deciphering.old glued.old inputs.old wires.old scores.old result enciphered.new deciphering.new glued.new inputs.new wires.new scores.new }
{
    probe::probe_score(
        instance,
        m,
        key,
        record,
        indices,
        whitening,
        scoring,
        enciphered,
        deciphering,
        glued,
        inputs,
        wires,
        scores,
    )
}

#[unsafe(no_mangle)]
pub extern "C" fn probe_read_file(source: &[u8], res: &mut [u32]) -> Reply
    ensures { ReadReply source.now res.old result res.new }
{
    probe::probe_read_file(source, res)
}

#[unsafe(no_mangle)]
pub extern "C" fn probe_write_file(net: &[u32], res: &mut [u8]) -> Reply
    ensures { WriteReply net.now res.old result res.new }
{
    probe::probe_write_file(net, res)
}

#[unsafe(no_mangle)]
pub extern "C" fn probe_check_file(source: &[u8]) -> Reply
    ensures { result ≡ reply_of (check_answer Full source.now) }
{
    probe::probe_check_file(source)
}

#[unsafe(no_mangle)]
pub extern "C" fn probe_print(input: &[u8], res: &mut [u8]) -> Printout
    ensures { PrintReply input.now res.old result res.new }
{
    probe::probe_print(input, res)
}

#[unsafe(no_mangle)]
pub extern "C" fn probe_append(
    key: &[u8],
    record: &[u8],
    iv: &[u8],
    file: &[u8],
    frame: &mut [u8],
) -> Reply
    ensures { AppendReply key.now «record».now iv.now file.now frame.old result frame.new }
{
    probe::probe_append(key, record, iv, file, frame)
}

#[unsafe(no_mangle)]
pub extern "C" fn probe_append_after(
    key: &[u8],
    record: &[u8],
    iv: &[u8],
    last: &[u8],
    frame: &mut [u8],
) -> Reply
    ensures { AppendAfterReply key.now «record».now iv.now last.now frame.old result frame.new }
{
    probe::probe_append_after(key, record, iv, last, frame)
}

#[unsafe(no_mangle)]
pub extern "C" fn probe_read_frames(key: &[u8], file: &[u8], records: &mut [u8]) -> Reply
    ensures { FramesReply key.now file.now records.old result records.new }
{
    probe::probe_read_frames(key, file, records)
}

#[unsafe(no_mangle)]
pub extern "C" fn probe_check_frames(file: &[u8]) -> Reply
    ensures { result ≡ reply_of (file_answer 1 file.now) }
{
    probe::probe_check_frames(file)
}

#[unsafe(no_mangle)]
pub extern "C" fn probe_fields(bits: &[u8]) -> Fielding
    ensures { result ≡ fielding_of (found_by (fields_answer bits.now) (port_of bits.now)) }
{
    probe::probe_fields(bits)
}

#[unsafe(no_mangle)]
pub extern "C" fn probe_bits(
    port: u32,
    admin: u32,
    link: u32,
    errors: u32,
    load: u32,
    res: &mut [u8],
) -> Putting
    ensures { (result ≡ putting_of (port_made port admin link errors load) (length res.old)) × (res.new ≡ bits_left (port_made port admin link errors load) res.old) }
{
    probe::probe_bits(port, admin, link, errors, load, res)
}
