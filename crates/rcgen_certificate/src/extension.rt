//! One extension of what is issued, and the field of all of them (RFC 5280, 4.1.2.9).
ghost use Rattle.std.specs.Prelude.{◌≡◌, Some, ◌++◌, ℕ, List, true, map, OnOk, IfErr, OnErr};
ghost use Rattle.std.specs.Option.{IfSome};
ghost use Rattle.asn1_core.specs.Arcs.{is_oid};
ghost use Rattle.der_tree.specs.Form.{IsDerOf};
ghost use Rattle.der_tree.specs.HasTree.{HasTree};
ghost use Rattle.pkix_cert.specs.Extensions.{extensions};
ghost use Rattle.rcgen_text.specs.declared.error.Error.TheVariants.{OutOfMemory};
ghost use Rattle.rcgen_certificate.specs.ExtensionRows.{are_named, form_of, extension_row, row_of_extension, IsField};

use asn1_core::{ObjectIdentifier, OctetString};
use der_tree::{DerType, SequenceOf, der};
use pkix_cert::{Extension, Extensions};
use rcgen_sign::{identifier, memory_only};
use rcgen_text::Error;
use std::alloc::Global;

/// A law: contents by a row of the table are the form of the row's value.
#[tactic(auto, using(crate::proofs::Rows::is_form))]
pub fn contents_are_forms<T: DerType>()
    ensures { (v : T) (b : List ℕ) → form_of T.codec v ≡ Some b → IsDerOf T.codec v b }
{}

/// Puts an extension at the end where there is a value, whose form its contents are.
#[tactic(auto, using(crate::proofs::Rows::form_is))]
pub fn push_extension<T: DerType>(
    alloc: Global,
    list: &mut SequenceOf<Extension>,
    id: &[u32],
    critical: bool,
    value: Option<T>,
) -> Result<(), Error>
    requires id { is_oid id.now ≡ true }
    requires value { IfSome value (HasTree T.codec) }
    ensures rows { OnOk result (map row_of_extension list.new ≡ map row_of_extension list.old ++ extension_row id.now critical T.codec value) }
    ensures err { OnErr result (list.new ≡ list.old) }
    ensures memory { IfErr result (λ e. e ≡ OutOfMemory) }
{
    let Some(value) = value else {
        return Ok(());
    };
    let contents = memory_only(der::encode(alloc, &value))?;
    list.push(typed(identifier(alloc, id)?, critical, contents))?;
    Ok(())
}

/// The extension of these parts.
pub(crate) fn typed(extn_id: ObjectIdentifier, critical: bool, contents: Vec<u8>) -> Extension
    ensures id { result.extn_id ≡ extn_id }
    ensures critical { result.critical ≡ critical }
    ensures contents { result.extn_value ≡ contents.items }
{
    Extension {
        extn_id,
        critical,
        extn_value: OctetString::new(contents),
    }
}

/// The field of the extensions: absent where there is none.
#[tactic(auto, using(crate::proofs::RowTrees::formed))]
pub fn extensions_field(list: SequenceOf<Extension>) -> Option<Extensions>
    requires { are_named (map row_of_extension list) ≡ true }
    ensures rows { IsField (map row_of_extension list) result }
    ensures formed { IfSome result (HasTree extensions) }
{
    if list.as_slice().is_empty() {
        None
    } else {
        Some(Extensions(list))
    }
}
