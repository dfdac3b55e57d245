// Instances 1 to 5: a filter over the variables of each row.
ghost use Rattle.std.specs.Prelude.{◌≡◌, ◌++◌, ℕ, ◌+◌, ◌%◌, ◌<◌, ◌≤◌, length, get_or, take};
ghost use Rattle.filter.specs.Filter.{var, tab};
ghost use Rattle.instance.specs.Table.{key_bits, row_bits};
ghost use Rattle.instance.specs.Keys.{Keyed, key_in};
ghost use Rattle.filter.specs.Instances.{filter_of};
ghost use Rattle.cipher.specs.Inner.{RowsLent, keyed_one};

// One row or more, end to end, with the key that their indices choose from and their whitening.
#[derive(Clone, Copy)]
pub(crate) struct Rows<'a> {
    pub(crate) instance: u32,
    pub(crate) key: &'a [u8],
    pub(crate) indices: &'a [u32],
    pub(crate) whitening: &'a [u8],
    ghost keyed: { Keyed instance key.now } by { keyed_one instance key.now },
    ghost below: { (j : ℕ) → j < length indices.now → get_or indices.now j 0 < key_bits instance },
    ghost whitened: { length whitening.now ≡ length indices.now },
}

// A byte whose low bit is the key's at place p. No other function here knows how a key is lent.
fn key_bit(instance: u32, key: &[u8], p: usize) -> u8
    requires { Keyed instance key.now × (p < key_bits instance) }
    ensures { result % 2 ≡ get_or (key_in instance key.now) p 0 }
{
    key[p]
}

// Each method that fills x asks that as many indices are there: x is another list, and a ghost field speaks of its own
// struct alone.
impl Rows<'_> {
    ghost use Rattle.cipher.specs.InnerVariables.{variable_of, stream_rows};

    // A byte whose low bit is variable j, key[indices[j]] + whitening[j].
    fn variable(&self, j: usize) -> u8
        requires { j < length self.now.indices.now }
        ensures { result % 2 ≡ variable_of self.now j }
    {
        let p = self.indices[j] as usize;
        key_bit(self.instance, self.key, p) ^ self.whitening[j]
    }

    // Eight such bytes, from variable i on.
    fn eight_variables(&self, i: usize) -> [u8; 8]
        requires { i + 8 ≤ length self.now.indices.now }
        ensures { (t : ℕ) → t < 8 → get_or result t 0 % 2 ≡ variable_of self.now (i + t) }
    {
        let mut some = [0u8; 8];
        for t in 0..8 {
            some[t] = self.variable(i + t);
        }
        some
    }

    // The variables from variable i on, behind those that are written.
    fn put_variables_from(&self, i: usize, x: &mut [u8])
        requires { (i ≤ length x.old) × (take i x.old ≡ tab (variable_of self.now) i) × (length x.old ≤ length self.now.indices.now) }
        ensures { x.new ≡ tab (variable_of self.now) (length x.old) }
    {
        for j in i..x.len() {
            x[j] = self.variable(j) % 2;
        }
    }

    // The variables. Eight are read before any is written: the compiler need not ask whether x is a part of what it reads.
    fn put_variables(&self, x: &mut [u8])
        requires { length x.old ≤ length self.now.indices.now }
        ensures { x.new ≡ tab (variable_of self.now) (length x.old) }
    {
        let whole = x.len() / 8;
        for e in 0..whole {
            put_eight_variables(self.eight_variables(8 * e), 8 * e, x);
        }
        self.put_variables_from(8 * whole, x);
    }

    // A keystream bit: the filter over the variables, for which x has just room.
    fn bit(&self, x: &mut [u8]) -> u8
        requires { length x.old ≤ length self.now.indices.now }
        ensures { result ≡ filter_of self.now.instance (tab (variable_of self.now) (length x.old)) }
    {
        self.put_variables(x);
        filter::filter(self.instance, x)
    }

    // The keystream bits, one for each place of out. x has room for a row's variables. out is written by index, which
    // also says where the bit's row begins.
    fn put_bits(&self, x: &mut [u8], out: &mut [u8])
        requires { RowsLent self.now.instance (length self.now.indices.now) (length x.old) (length out.old) }
        ensures { out.new ≡ stream_rows self.now (length out.old) }
    {
        let row = instance::row_bits(self.instance);
        for i in 0..out.len() {
            let at = i * row;
            let end = at + row;
            let lent = Rows {
                instance: self.instance,
                key: self.key,
                indices: &self.indices[at..end],
                whitening: &self.whitening[at..end],
            };
            out[i] = lent.bit(&mut x[..row]);
        }
    }

    // The same, with room for the variables of any instance.
    pub(crate) fn put_all(&self, out: &mut [u8])
        requires { RowsLent self.now.instance (length self.now.indices.now) 1394 (length out.old) }
        ensures { out.new ≡ stream_rows self.now (length out.old) }
    {
        let mut x = [0u8; 1394];
        self.put_bits(&mut x, out);
    }
}

// Writes the low bits of eight bytes to places i to i + 7. A plain copy of eight bytes would go through memory and be
// slower, so the low bits are taken here.
fn put_eight_variables(some: [u8; 8], i: usize, x: &mut [u8])
    requires { i + 8 ≤ length x.old }
    ensures { take (i + 8) x.new ≡ take i x.old ++ tab (λ t. get_or some t 0 % 2) 8 }
{
    for t in 0..8 {
        x[i + t] = some[t] % 2;
    }
}
