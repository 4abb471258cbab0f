//! In which order routers take turns.

/// In which order routers take turns.
#[derive(Clone, Copy)]
pub enum Order {
    /// In ascending cyclic order, from router 0 on.
    Cyclic,
    /// In a pseudo-random order, which the seed determines: after each turn a router is drawn, and from it on
    /// the first that has something to do is next.
    Seeded(u64),
}

// The generator xorshift of 64 bits (G. Marsaglia, Xorshift RNGs, 2003). Its state is never 0.
#[derive(Clone, Copy)]
struct Draws {
    state: u64,
}

impl Draws {
    fn new(seed: u64) -> Draws {
        Draws {
            state: if seed == 0 { u64::MAX } else { seed },
        }
    }

    fn draw(&mut self) -> u16 {
        let mut state = self.state;
        state ^= state << 13;
        state ^= state >> 7;
        state ^= state << 17;
        self.state = state;
        u16::try_from(state >> 48).unwrap_or(0)
    }
}

/// From where on a router is looked for that takes the next turn.
#[derive(Clone, Copy)]
pub struct Turns {
    order: Order,
    draws: Draws,
    routers: usize,
    from: u16,
}

impl Turns {
    /// The first turn, in a network of so many routers.
    pub fn new(order: Order, routers: usize) -> Turns {
        let seed = match order {
            Order::Cyclic => 0,
            Order::Seeded(seed) => seed,
        };
        let mut turns = Turns {
            order,
            draws: Draws::new(seed),
            routers: routers.max(1),
            from: 0,
        };
        turns.after(u16::MAX);
        turns
    }

    /// From where on.
    pub fn from(&self) -> u16 {
        self.from
    }

    /// The turn after that of this router.
    pub fn after(&mut self, router: u16) {
        self.from = match self.order {
            Order::Cyclic => router.wrapping_add(1),
            Order::Seeded(_) => (usize::from(self.draws.draw()) % self.routers.max(1)) as u16,
        };
    }
}
