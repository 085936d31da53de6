//! Distribution points, and the extensions that are given as they are.
ghost use Rattle.std.specs.Prelude.{◌≡◌, map, string_bytes, IfOk, IfErr};
ghost use Rattle.rcgen_certificate.specs.CustomExtensions.{custom_of};
ghost use Rattle.rcgen_certificate.specs.DistributionPoints.{uris_of};
ghost use Rattle.rcgen_text.specs.declared.error.Error.TheVariants.{OutOfMemory};
ghost use Rattle.profile_params.specs.Extensions.{extension_of_profile};

use rcgen_issue::{CrlDistributionPoint, CustomExtension, Error};
use std::alloc::Global;
use toml_format::{ExtensionEntry, List, Text};

/// The point with these URIs, in order.
pub(super) fn point(alloc: Global, texts: Vec<Text>) -> Result<CrlDistributionPoint, Error>
    ensures uris { IfOk result (λ point. uris_of point ≡ texts.items) }
    ensures memory { IfErr result (λ e. e ≡ OutOfMemory) }
{
    let mut uris = Vec::with_capacity(alloc, texts.len())?;
    for text in texts {
        uris.push(text.into_string())?;
    }
    Ok(CrlDistributionPoint { uris })
}

/// The points with these URIs, in order.
pub(crate) fn points(
    alloc: Global,
    lists: Vec<List<Text>>,
) -> Result<Vec<CrlDistributionPoint>, Error>
    ensures uris { IfOk result (λ points. map uris_of points.items ≡ lists.items) }
    ensures memory { IfErr result (λ e. e ≡ OutOfMemory) }
{
    let mut points = Vec::with_capacity(alloc, lists.len())?;
    for texts in lists {
        points.push(point(alloc, texts.into_vec())?)?;
    }
    Ok(points)
}

/// The extension as it is.
fn extension(alloc: Global, entry: ExtensionEntry) -> Result<CustomExtension, Error>
    ensures given { IfOk result (λ extension. custom_of extension ≡ extension_of_profile entry) }
    ensures memory { IfErr result (λ e. e ≡ OutOfMemory) }
{
    let oid = entry.oid.into_vec();
    let content = entry.content.into_vec();
    let mut extension = CustomExtension::from_oid_content(alloc, &oid, content)?;
    extension.set_criticality(entry.critical);
    Ok(extension)
}

/// The extensions as they are, in order.
pub(crate) fn extensions(
    alloc: Global,
    entries: Vec<ExtensionEntry>,
) -> Result<Vec<CustomExtension>, Error>
    ensures given { IfOk result (λ extensions. map custom_of extensions.items ≡ map extension_of_profile entries.items) }
    ensures memory { IfErr result (λ e. e ≡ OutOfMemory) }
{
    let mut extensions = Vec::with_capacity(alloc, entries.len())?;
    for entry in entries {
        extensions.push(extension(alloc, entry)?)?;
    }
    Ok(extensions)
}
