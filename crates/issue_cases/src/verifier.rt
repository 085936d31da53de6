//! A verifier that a user of the library hands in.
use rcgen_issue::Verifier;

/// Accepts each signature, or none.
#[derive(Clone, Copy)]
pub struct Constant {
    pub accepts: bool,
}

impl Verifier for Constant {
    ghost accepts = { λ verifier info key algorithm signature. verifier.accepts };

    fn verify(&self, _info: &[u8], _key_info: &[u8], _algorithm: &[u8], _signature: &[u8]) -> bool {
        self.accepts
    }
}
