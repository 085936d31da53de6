//! Basic constraints.
ghost use Rattle.std.specs.Prelude.{◌≡◌, IfOk, IfErr, ◌++◌, map, OnOk};
ghost use Rattle.rcgen_text.specs.declared.error.Error.TheVariants.{OutOfMemory};
ghost use Rattle.rcgen_certificate.specs.BasicConstraints.{constraints, basic_constraints_row};
ghost use Rattle.rcgen_certificate.specs.ExtensionRows.{row_of_extension};

use crate::extension::push_extension;
use asn1_core::Integer;
use der_tree::SequenceOf;
use pkix_cert::Extension;
use pkix_cert::extension_id::ID_CE_BASIC_CONSTRAINTS;
use rcgen_text::{BasicConstraints, Error, IsCa};
use std::alloc::Global;

/// Whether the subject is an authority (RFC 5280, 4.2.1.9); None where that isn't said.
fn constraints(alloc: Global, is_ca: IsCa) -> Result<Option<pkix_cert::BasicConstraints>, Error>
    ensures value { IfOk result (λ c. c ≡ constraints is_ca) }
    ensures memory { IfErr result (λ e. e ≡ OutOfMemory) }
{
    match is_ca {
        IsCa::NoCa => Ok(None),
        IsCa::ExplicitNoCa => Ok(Some(pkix_cert::BasicConstraints {
            ca: false,
            path_len_constraint: None,
        })),
        IsCa::Ca(BasicConstraints::Unconstrained) => Ok(Some(pkix_cert::BasicConstraints {
            ca: true,
            path_len_constraint: None,
        })),
        IsCa::Ca(BasicConstraints::Constrained(most)) => {
            let most = Integer::from_unsigned(alloc, &[most])?;
            Ok(Some(pkix_cert::BasicConstraints {
                ca: true,
                path_len_constraint: Some(most),
            }))
        }
    }
}

/// Puts the extension on whether the subject is an authority at the end.
#[tactic(auto, using(crate::proofs::KindTrees::basic_constraints_formed))]
pub(crate) fn push_basic_constraints(
    alloc: Global,
    list: &mut SequenceOf<Extension>,
    is_ca: IsCa,
) -> Result<(), Error>
    ensures rows { OnOk result (map row_of_extension list.new ≡ map row_of_extension list.old ++ basic_constraints_row is_ca) }
    ensures memory { IfErr result (λ e. e ≡ OutOfMemory) }
{
    let constraints = constraints(alloc, is_ca)?;
    push_extension(alloc, list, ID_CE_BASIC_CONSTRAINTS, true, constraints)
}
