//! Whether a party offers sessions.
ghost use Rattle.std.specs.Prelude.{◌≡◌};
ghost use Rattle.sj_forward_rules.specs.Ready.{is_filled};
ghost use Rattle.sj_offers.specs.Offers.{offers_in};

/// Whether the party offers any session.
pub(crate) fn is_offering(offers: &[Vec<u32>], from: u16) -> bool
    ensures { result ≡ is_filled (offers_in offers.now from) }
{
    if from as usize >= offers.len() {
        return false;
    }
    let list = &offers[from as usize];
    !list.is_empty()
}
