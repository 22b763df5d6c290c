// Laws of certificates themselves, for any maker.
ghost use Rattle.slot_cert.specs.Laws.{OneCertificate, SlotsAreTraits};

/// People have one canonical certificate at most.
pub fn one_certificate()
    ensures { OneCertificate }
{}

/// Each slot of pairs that place people, so of their certificate, is the number of a trait, below 6.
pub fn slots_are_traits()
    ensures { SlotsAreTraits }
{}
