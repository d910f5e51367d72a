// Laws of the texts of what schedules show.
ghost use Rattle.std.specs.Prelude.{◌≡◌, ◌<◌, ℕ, List};
ghost use Rattle.world_model.specs.Shown as shown;
ghost use Rattle.report_text.specs.IdentityText.{text_of_identity};
ghost use Rattle.report_identities.specs.Lawful.{HasLargeTerm, IsLawfulIdentity, height_in};

/// A text says at most one thing that a schedule shows.
pub fn texts_say_one_identity()
    ensures { (text : List ℕ) (i other : shown.Identity) → IsLawfulIdentity i → IsLawfulIdentity other → text ≡ text_of_identity i → text ≡ text_of_identity other → i ≡ other }
{}

/// Where the terms are higher than 10,000, one of them has more than 10,000 nodes.
pub fn high_terms_are_large()
    ensures { (i : shown.Identity) → 10000 < height_in i → HasLargeTerm i }
{}
