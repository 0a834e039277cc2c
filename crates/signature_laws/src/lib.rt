//! Laws of the signature of a file.
#![tactic(auto)]

ghost use Rattle.signature_laws.specs.FileSignature.{ProfileLaw};

/// A file in the profile has a signature with different names, and is well sorted over it.
pub fn profile_law()
    ensures { ProfileLaw }
{}
