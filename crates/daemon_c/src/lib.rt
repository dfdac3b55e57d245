// The calls of crate `daemon` as a static library for C. Each call is that of `daemon`.
#![tactic(auto)]

ghost use Rattle.std.specs.Prelude.{◌≡◌};
ghost use Rattle.records.specs.declared.form.Form.{Form};
ghost use Rattle.records.specs.File.{check_answer};
ghost use Rattle.daemon.specs.Packed.{packed_of};
ghost use Rattle.daemon.specs.Daemon.{Enciphered};

// Enciphers a record of m bits; deciphers one that was enciphered. Lists: key, record, IV, result.
#[unsafe(no_mangle)]
pub extern "C" fn sallowknot_kreyvium_encipher(
    m: u32,
    key: &[u8],
    record: &[u8],
    iv: &[u8],
    res: &mut [u8],
) -> u64
    ensures { Enciphered m key.now «record».now iv.now res.old result res.new }
{
    daemon::sallowknot_kreyvium_encipher(m, key, record, iv, res)
}

// Checks a netlist file. List: source.
#[unsafe(no_mangle)]
pub extern "C" fn sallowknot_check_file(source: &[u8]) -> u64
    ensures { result ≡ packed_of (check_answer Form.Full source.now) }
{
    daemon::sallowknot_check_file(source)
}
