// The scoring daemon's two calls, for C: Kreyvium enciphering and netlist file checking, on numbers and byte
// lists. A list passes as a pointer and a length, an answer as one number.
#![tactic(auto)]

ghost use Rattle.std.specs.Prelude.{◌≡◌, min};
ghost use Rattle.records.specs.declared.form.Form.{Form};
ghost use Rattle.records.specs.File.{check_answer};
ghost use Rattle.daemon.specs.Packed.{most_place, packed_of, capped_of};
ghost use Rattle.daemon.specs.Daemon.{Enciphered};
ghost use Rattle.daemon.specs.Inner.{without_indices};

use answer::{Answer, Refusal};

// The largest number and list, and the largest place, that have room.
const MOST_BYTE: u32 = 255;

const MOST_PLACE: u64 = 281474976710655;

// A number or a list, or the largest that has room.
fn byte(x: u32) -> u64
    ensures { result ≡ min x 255 }
{
    u64::from(x.min(MOST_BYTE))
}

// A place, or the largest that has room.
fn bounded(place: usize) -> u64
    ensures { result ≡ min place most_place }
{
    (place as u64).min(MOST_PLACE)
}

// Number, list and place in one number: 8 bits, 8 bits and 48 bits from the lowest up.
#[tactic(auto, unfolding(crate::specs::Packed::capped_of))]
pub fn packed(answer: Answer) -> u64
    ensures { result ≡ capped_of answer }
{
    match answer {
        Ok(()) => 0,
        Err(e) => {
            let number = byte(u32::from(e.reason));
            let list = byte(e.list);
            let place = bounded(e.place);
            number + 256 * list + 65536 * place
        }
    }
}

// The lists counted without the indices, which are list 3 of `cipher::encipher`.
#[tactic(auto, unfolding(crate::specs::Inner::without_indices))]
fn without_indices(answer: Answer) -> Answer
    ensures { result ≡ without_indices answer }
{
    answer.map_err(|e| Refusal {
        list: if 3 < e.list { e.list - 1 } else { e.list },
        ..e
    })
}

// Enciphers a record of m bits; deciphers one that was enciphered. Lists: key, record, IV, result.
pub fn sallowknot_kreyvium_encipher(
    m: u32,
    key: &[u8],
    record: &[u8],
    iv: &[u8],
    res: &mut [u8],
) -> u64
    ensures { Enciphered m key.now «record».now iv.now res.old result res.new }
{
    let r = cipher::encipher(6, m, key, record, &[], iv, res);
    packed(without_indices(r))
}

// Checks a netlist file. List: source.
pub fn sallowknot_check_file(source: &[u8]) -> u64
    ensures { result ≡ packed_of (check_answer Form.Full source.now) }
{
    packed(file::check_file(source))
}
