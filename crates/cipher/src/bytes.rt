// A byte spread over eight bytes, a bit to each: for keystreams here and for records in `frames`.
ghost use Rattle.std.specs.Prelude.{◌≡◌, ◌-◌};
ghost use Rattle.filter.specs.Filter.{tab};
ghost use Rattle.kreyvium.specs.Words.{bit};

// The bits of a byte, the highest first. The first factor has a one at places 0, 9, .. 54 and takes bit 7 - k to place
// 7 + 8 * k, for k below 7; no two bits meet. The lowest bit is put in by itself.
#[inline]
pub fn spread(byte: u8) -> [u8; 8]
    ensures { result ≡ tab (λ k. bit byte (7 - k)) 8 }
{
    let b = u64::from(byte);
    let bytes = (((b * 18049651735527937) >> 7) & 282578800148737) + (b % 2) * 72057594037927936;
    bytes.to_le_bytes()
}
