ghost use Rattle.std.specs.Prelude.{◌≡◌};
ghost use Rattle.lagsystem.specs.Inner.{inner_state};

use crate::calls::System;
use crate::inner::Inner;

impl<F: Drop> Inner<F> {
    /// Replaces the distribution algorithm; the state stays.
    fn with_algorithm<G>(self, algorithm: G) -> Inner<G>
        ensures state { inner_state result ≡ inner_state self }
        ensures algorithm { result.distributor.algorithm ≡ algorithm }
    {
        let Inner {
            system,
            max_delay,
            aggregators,
            ports,
            system_ports,
            distributor,
        } = self;
        Inner {
            system,
            max_delay,
            aggregators,
            ports,
            system_ports,
            distributor: distributor.with_algorithm(algorithm),
        }
    }
}

impl<F: Drop> System<F> {
    /// Replaces the distribution algorithm; the state stays. A `System<()>` has no algorithm and no other call: a program keeps
    /// a system in this form where a type cannot name the algorithm (profile).
    pub fn with_algorithm<G>(self, algorithm: G) -> System<G>
        ensures state { result.state ≡ self.state }
        ensures algorithm { result.algorithm ≡ algorithm }
    {
        let System { inner } = self;
        System {
            inner: inner.with_algorithm(algorithm),
        }
    }
}
