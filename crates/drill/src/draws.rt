ghost use Rattle.std.specs.Prelude.{◌≡◌, ℕ, ◌+◌, ◌*◌, ◌<◌};
ghost use Rattle.drill.specs.Generator.{next_state, state_after, drawn_from};
ghost use Rattle.drill.specs.Steps.{step_at};
ghost use Rattle.drill.specs.inside.Ranges.{IsStep};

/// By what a state is multiplied.
const FACTOR: u64 = 1_103_515_245;

/// What is added to the product.
const SUMMAND: u64 = 12_345;

/// How many states there are.
const STATES: u64 = 1 << 31;

/// By what a state is divided; a draw is a remainder of the quotient.
const DIVISOR: u32 = 65_536;

/// One step of a drill.
#[derive(Clone, Copy)]
pub(crate) struct Step {
    /// 1 to 6.
    pub host: u8,
    /// What the host does, from 0 to 7.
    pub kind: u8,
    /// 1 to 97.
    pub value: u8,
}

/// The generator that everything is drawn from.
#[derive(Drop)]
pub(crate) struct Draws {
    state: u32,
}

impl Draws {
    pub fn new(seed: u32) -> Draws
        ensures { result.state ≡ seed }
    {
        Draws { state: seed }
    }

    /// The next draw, a number below the one that is given.
    fn draw(&mut self, below: u8) -> u8
        requires { 0 < below }
        ensures state { self.new.state ≡ next_state self.old.state }
        ensures drawn { result ≡ drawn_from self.new.state below }
    {
        let state = (u64::from(self.state) * FACTOR + SUMMAND) % STATES;
        self.state = state as u32;
        (self.state / DIVISOR % u32::from(below)) as u8
    }

    /// The next step, which takes three draws.
    pub fn step(&mut self) -> Step
        ensures step { (seed i : ℕ) → self.old.state ≡ state_after seed (3 * i)
            → result ≡ step_at seed i }
        ensures state { (seed i : ℕ) → self.old.state ≡ state_after seed (3 * i)
            → self.new.state ≡ state_after seed (3 * (i + 1)) }
        ensures ranges { IsStep result }
    {
        let host = 1 + self.draw(6);
        let kind = self.draw(8);
        let value = 1 + self.draw(97);
        Step { host, kind, value }
    }
}
