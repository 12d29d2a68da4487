// Qubits, outcomes and shots by their numbers, fixed sets of them, and Pauli operators up to their phase.
#![tactic(auto)]

mod sets;

ghost use Rattle.std.specs.Prelude.{◌≡◌, [], ◌∷◌, ◌<◌, ◌≤◌, length, get_or};
ghost use Rattle.std.proofs.Math.Option.{some};
ghost use Rattle.pauli.specs.Bits.{members};
ghost use Rattle.pauli.specs.Pauli.{◌∗◌ as ◌times◌, identity as Pauli·identity, anticommutes as Pauli·anticommutes, added_at, cleared};
ghost use Rattle.pauli.specs.Gate.{swap_XZ, add_xto_Z, add_zto_X, controlled_X, controlled_Z, controlled_Y, swap_rows_of, gate_of, conjugated, conjugated_back};
ghost use Rattle.pauli.specs.Code.{by_gate, operand_count_of, gate_named, named_or_none};
ghost use Rattle.pauli.specs.Fixed.{as_pauli, AllBelow};

pub use sets::{add_outcomes, has_outcome, has_qubit, set_of, sum_of_qubits};

// A qubit's number is never taken for an outcome's or a shot's.
#[derive(Clone, Copy)]
pub struct QubitId(pub usize);

#[derive(Clone, Copy)]
pub struct OutcomeId(pub usize);

#[derive(Clone, Copy)]
pub struct Shot(pub usize);

// A list in lent words is a list of numbers; its members are taken out as ids, by these alone.
impl From<u64> for QubitId {
    fn from(number: u64) -> QubitId
        ensures { result.0 ≡ number }
    {
        QubitId(number as usize)
    }
}

impl From<u64> for OutcomeId {
    fn from(number: u64) -> OutcomeId
        ensures { result.0 ≡ number }
    {
        OutcomeId(number as usize)
    }
}

// The qubit at place i of a list.
pub fn qubit_at(list: &[u64], i: usize) -> QubitId
    requires { i < length list.now }
    ensures { result.0 ≡ get_or list.now i 0 }
{
    QubitId::from(list[i])
}

// The outcome at place i of a list.
pub fn outcome_at(list: &[u64], i: usize) -> OutcomeId
    requires { i < length list.now }
    ensures { result.0 ≡ get_or list.now i 0 }
{
    OutcomeId::from(list[i])
}

// The bits of a word, and the number of the last.
pub const WORD_BITS: usize = 64;

pub const LAST_BIT: usize = WORD_BITS - 1;

// Codes of gates: those up to this take one qubit, the others two; the last is ControlledY's.
pub const LAST_ONE_QUBIT_GATE: u64 = 10;

pub const CONTROLLED_Y: u64 = 15;

pub const LAST_GATE: u64 = CONTROLLED_Y;

// How many qubits the gate of a code takes, and 0 above the last, where there is no gate.
pub fn operand_count(code: u64) -> u8
    ensures { result ≡ operand_count_of (gate_of code) }
{
    if code <= LAST_ONE_QUBIT_GATE {
        return 1;
    }
    if code <= LAST_GATE {
        return 2;
    }
    0
}

// The gates, in the order of their codes.
#[derive(Clone, Copy, PartialEq, Eq, Debug)]
pub enum Gate {
    I,
    X,
    Y,
    Z,
    Hadamard,
    SqrtZ,
    SqrtZInv,
    SqrtX,
    SqrtXInv,
    SqrtY,
    SqrtYInv,
    ControlledX,
    ControlledZ,
    Swap,
    PrepareBell,
    ControlledY,
}

impl Gate {
    // The gate of a code on a line, and none above the last. Codes to 10 take one qubit, the others two.
    pub fn from_code(code: u64) -> Option<Gate>
        ensures { named_or_none result ≡ gate_of code }
    {
        match code {
            0..=10 => Some(Gate::on_one_qubit(code)),
            11..=15 => Some(Gate::on_two_qubits(code)),
            _ => None,
        }
    }

    fn on_one_qubit(code: u64) -> Gate
        requires { code ≤ 10 }
        ensures { gate_of code ≡ some (gate_named result) }
    {
        match code {
            0 => Gate::I,
            1 => Gate::X,
            2 => Gate::Y,
            3 => Gate::Z,
            4 => Gate::Hadamard,
            5 => Gate::SqrtZ,
            6 => Gate::SqrtZInv,
            7 => Gate::SqrtX,
            8 => Gate::SqrtXInv,
            9 => Gate::SqrtY,
            _ => Gate::SqrtYInv,
        }
    }

    fn on_two_qubits(code: u64) -> Gate
        requires { (11 ≤ code) × (code ≤ 15) }
        ensures { gate_of code ≡ some (gate_named result) }
    {
        match code {
            11 => Gate::ControlledX,
            12 => Gate::ControlledZ,
            13 => Gate::Swap,
            14 => Gate::PrepareBell,
            _ => Gate::ControlledY,
        }
    }
}

// A Pauli operator up to its phase: the qubits with an X part, and those with a Z part. Y has both.
#[derive(Clone, Copy)]
pub struct Pauli {
    pub x: [u64; 4],
    pub z: [u64; 4],
}

impl Pauli {
    pub fn identity() -> Pauli
        ensures { as_pauli result ≡ Pauli·identity }
    {
        Pauli {
            x: [0u64; 4],
            z: [0u64; 4],
        }
    }

    // The Pauli that a line writes: the qubits with an X part, and those with a Z part.
    pub fn from_lists(x: &[u64], z: &[u64]) -> Pauli
        requires { AllBelow 256 x.now × AllBelow 256 z.now }
        ensures { as_pauli result ≡ record { x = members x.entry.now; z = members z.now } }
    {
        Pauli {
            x: set_of(x),
            z: set_of(z),
        }
    }

    // The product, up to its phase.
    pub fn multiply(self, other: Pauli) -> Pauli
        ensures { as_pauli result ≡ (as_pauli self times as_pauli other) }
    {
        Pauli {
            x: sum_of_qubits(self.x, other.x),
            z: sum_of_qubits(self.z, other.z),
        }
    }

    // Whether X parts of the first on Z parts of the second, plus the reverse, are odd in number.
    // The four words of clashes are added first, so that ones are counted once.
    pub fn anticommutes(self, other: Pauli) -> bool
        ensures { result ≡ Pauli·anticommutes 256 (as_pauli self) (as_pauli other) }
    {
        let x = self.x;
        let z = self.z;
        let other_x = other.x;
        let other_z = other.z;
        let mut w: u64 = 0;
        // By index: four arrays are read at one place, for which a zip is no plainer.
        for i in 0..4 {
            w ^= (x[i] & other_z[i]) ^ (z[i] & other_x[i]);
        }
        u64::count_ones(w) % 2 == 1
    }

    // ---- Parts on single qubits. The gates read those at their operands and add to them, with no branch on a bit.

    // Whether there is an X part on q.
    pub fn has_x(self, q: QubitId) -> bool
        ensures { result ≡ (as_pauli self).x q.0 }
    {
        has_qubit(self.x, q)
    }

    // Whether there is a Z part on q.
    pub fn has_z(self, q: QubitId) -> bool
        ensures { result ≡ (as_pauli self).z q.0 }
    {
        has_qubit(self.z, q)
    }

    // With x and z added to the parts on q.
    pub fn add_at(mut self, q: QubitId, x: bool, z: bool) -> Pauli
        requires { q.0 < 256 }
        ensures { as_pauli result ≡ added_at q.0 x z (as_pauli self) }
    {
        let q = q.0;
        let k = q / WORD_BITS;
        self.x[k] ^= (x as u64) << (q % WORD_BITS);
        self.z[k] ^= (z as u64) << (q % WORD_BITS);
        self
    }

    // Without its parts on q.
    pub fn clear_qubit(self, q: QubitId) -> Pauli
        requires { q.0 < 256 }
        ensures { as_pauli result ≡ cleared (q.0 ∷ []) (as_pauli self) }
    {
        self.add_at(q, self.has_x(q), self.has_z(q))
    }

    // ---- Gates

    // X and Z part of q exchanged: Hadamard and SqrtY.
    pub fn swap_parts(self, q: QubitId) -> Pauli
        requires { q.0 < 256 }
        ensures { as_pauli result ≡ swap_XZ q.0 (as_pauli self) }
    {
        let differ = self.has_x(q) != self.has_z(q);
        self.add_at(q, differ, differ)
    }

    // The X part of q added to its Z part: SqrtZ.
    pub fn add_x_to_z(self, q: QubitId) -> Pauli
        requires { q.0 < 256 }
        ensures { as_pauli result ≡ add_xto_Z q.0 (as_pauli self) }
    {
        self.add_at(q, false, self.has_x(q))
    }

    // The Z part of q added to its X part: SqrtX.
    pub fn add_z_to_x(self, q: QubitId) -> Pauli
        requires { q.0 < 256 }
        ensures { as_pauli result ≡ add_zto_X q.0 (as_pauli self) }
    {
        self.add_at(q, self.has_z(q), false)
    }

    // ControlledX: the X part of the control a is added to the target b's, the target's Z part to the
    // control's.
    pub fn controlled_x(self, a: QubitId, b: QubitId) -> Pauli
        requires { (a.0 < 256) × (b.0 < 256) }
        ensures { as_pauli result ≡ controlled_X a.0 b.0 (as_pauli self) }
    {
        let x = self.has_x(a);
        let z = self.has_z(b);
        self.add_at(b, x, false).add_at(a, false, z)
    }

    // ControlledZ: each X part is added to the other's Z part.
    pub fn controlled_z(self, a: QubitId, b: QubitId) -> Pauli
        requires { (a.0 < 256) × (b.0 < 256) }
        ensures { as_pauli result ≡ controlled_Z a.0 b.0 (as_pauli self) }
    {
        let at_a = self.has_x(a);
        let at_b = self.has_x(b);
        self.add_at(b, false, at_a).add_at(a, false, at_b)
    }

    // ControlledY: the X part of the control a is added to both of the target b's, both of the target's to the control's
    // Z part.
    pub fn controlled_y(self, a: QubitId, b: QubitId) -> Pauli
        requires { (a.0 < 256) × (b.0 < 256) }
        ensures { as_pauli result ≡ controlled_Y a.0 b.0 (as_pauli self) }
    {
        let x = self.has_x(a);
        let differ = self.has_x(b) != self.has_z(b);
        self.add_at(b, x, x).add_at(a, false, differ)
    }

    // Swap: a and b exchanged.
    pub fn swap(self, a: QubitId, b: QubitId) -> Pauli
        requires { (a.0 < 256) × (b.0 < 256) }
        ensures { as_pauli result ≡ swap_rows_of a.0 b.0 (as_pauli self) }
    {
        let x = self.has_x(a) != self.has_x(b);
        let z = self.has_z(a) != self.has_z(b);
        self.add_at(b, x, z).add_at(a, x, z)
    }

    // Conjugated by a gate on its operands a and b, of which a gate on one qubit has no b.
    pub fn conjugate_by_gate(self, gate: Gate, a: QubitId, b: QubitId) -> Pauli
        requires { (a.0 < 256) × (b.0 < 256) }
        ensures { as_pauli result ≡ conjugated (gate_named gate) a.0 b.0 (as_pauli self) }
    {
        match gate {
            Gate::I | Gate::X | Gate::Y | Gate::Z => self,
            Gate::Hadamard | Gate::SqrtY | Gate::SqrtYInv => self.swap_parts(a),
            Gate::SqrtZ | Gate::SqrtZInv => self.add_x_to_z(a),
            Gate::SqrtX | Gate::SqrtXInv => self.add_z_to_x(a),
            Gate::ControlledX => self.controlled_x(a, b),
            Gate::ControlledZ => self.controlled_z(a, b),
            Gate::ControlledY => self.controlled_y(a, b),
            Gate::Swap => self.swap(a, b),
            Gate::PrepareBell => self.swap_parts(a).controlled_x(a, b),
        }
    }

    // The same going back: PrepareBell with its halves reversed, the other gates as forwards.
    pub fn conjugate_back_by_gate(self, gate: Gate, a: QubitId, b: QubitId) -> Pauli
        requires { (a.0 < 256) × (b.0 < 256) }
        ensures { as_pauli result ≡ conjugated_back (gate_named gate) a.0 b.0 (as_pauli self) }
    {
        match gate {
            Gate::PrepareBell => self.controlled_x(a, b).swap_parts(a),
            _ => self.conjugate_by_gate(gate, a, b),
        }
    }

    // Conjugated by the gate of a line's code. A code above the last has no gate and changes nothing.
    pub fn conjugate(self, code: u64, a: QubitId, b: QubitId) -> Pauli
        requires { (a.0 < 256) × (b.0 < 256) }
        ensures { as_pauli result ≡ by_gate conjugated (gate_of code) a.0 b.0 (as_pauli self) }
    {
        match Gate::from_code(code) {
            Some(gate) => self.conjugate_by_gate(gate, a, b),
            None => self,
        }
    }

    // The same going back.
    pub fn conjugate_back(self, code: u64, a: QubitId, b: QubitId) -> Pauli
        requires { (a.0 < 256) × (b.0 < 256) }
        ensures { as_pauli result ≡ by_gate conjugated_back (gate_of code) a.0 b.0 (as_pauli self) }
    {
        match Gate::from_code(code) {
            Some(gate) => self.conjugate_back_by_gate(gate, a, b),
            None => self,
        }
    }
}
