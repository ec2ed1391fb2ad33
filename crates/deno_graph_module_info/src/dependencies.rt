ghost use Rattle.std.specs.Prelude.{◌≡◌, All, IfOk, OnOk, map};
ghost use Rattle.deno_graph_source.specs.Source.{IsValid};
ghost use Rattle.deno_graph_dep.specs.Argument.{form_seen, part_seen};
ghost use Rattle.deno_graph_dep.specs.Descriptor.{dynamic_descriptor, dynamic_descriptor_seen, descriptor_seen, static_descriptor, static_descriptor_seen};
ghost use Rattle.deno_graph_module_info.specs.ModuleInfo.{argument_of_form, template_part_of, AreDescribed, CoversTypes, Describes, FitsText};
ghost use Rattle.deno_graph_module_info.specs.internal.ReadTypes.{AreRead};
ghost use Rattle.deno_graph_info.specs.declared.analysis.dependency.DependencyDescriptor.TheVariants.{Static, Dynamic};

use crate::read_types::{ReadTypes, types_before};
use deno_graph_base::text::{PositionRange, SourceTextInfo};
use deno_graph_base::values::{Items, Text};
use deno_graph_dep as dep;
use deno_graph_dep::analyze_program_dependencies;
use deno_graph_info::analysis::{
    DependencyDescriptor, DynamicArgument, DynamicDependencyDescriptor, DynamicTemplatePart,
    StaticDependencyDescriptor,
};
use deno_graph_source::tree::{Comments, Program};
use std::alloc::{AllocError, Global};

/// Returns the dependencies of a module as values that own their texts, with positions in the text,
/// and with the types that the comments before them name. Fails only if an allocation fails.
pub(crate) fn analyze_dependencies(
    alloc: Global,
    program: &Program,
    text_info: &SourceTextInfo,
    comments: &Comments,
) -> Result<Items<DependencyDescriptor>, AllocError>
    requires { IsValid text_info.now program.now comments.now }
    ensures are { IfOk result (AreDescribed text_info.now program.now comments.now) }
    ensures cover { IfOk result (All (CoversTypes text_info.now)) }
{
    let found = analyze_program_dependencies(alloc, program, comments)?;
    let mut dependencies = Items::with_capacity(alloc, found.len())?;
    let mut read = ReadTypes::new(alloc);
    for descriptor in found {
        dependencies.push(dependency(alloc, text_info, descriptor, &mut read)?)?;
    }
    Ok(dependencies)
}

/// Returns the dependency that a descriptor describes.
fn dependency(
    alloc: Global,
    text_info: &SourceTextInfo,
    descriptor: dep::DependencyDescriptor<'_>,
    read: &mut ReadTypes,
) -> Result<DependencyDescriptor, AllocError>
    requires fits { FitsText text_info.now (descriptor_seen descriptor) }
    requires read { AreRead text_info.now read.old }
    ensures is { IfOk result (Describes text_info.now (descriptor_seen descriptor.entry)) }
    ensures covers { IfOk result (CoversTypes text_info.now) }
    ensures read { OnOk result (AreRead text_info.now read.new) }
{
    match descriptor {
        dep::DependencyDescriptor::Static(found) => {
            Ok(static_dependency(alloc, text_info, found, read)?.into())
        }
        dep::DependencyDescriptor::Dynamic(found) => {
            Ok(dynamic_dependency(alloc, text_info, found, read)?.into())
        }
    }
}

/// Returns the static dependency that a descriptor describes.
fn static_dependency(
    alloc: Global,
    text_info: &SourceTextInfo,
    found: dep::StaticDependencyDescriptor<'_>,
    read: &mut ReadTypes,
) -> Result<StaticDependencyDescriptor, AllocError>
    requires fits { FitsText text_info.now (static_descriptor (static_descriptor_seen found)) }
    requires read { AreRead text_info.now read.old }
    ensures is { IfOk result (λ dependency.
        Describes text_info.now (static_descriptor (static_descriptor_seen found.entry)) (Static dependency)) }
    ensures covers { IfOk result (λ dependency. CoversTypes text_info.now (Static dependency)) }
    ensures read { OnOk result (AreRead text_info.now read.new) }
{
    Ok(StaticDependencyDescriptor {
        kind: found.kind,
        types_specifier: types_before(alloc, text_info, found.leading_comments, read)?,
        specifier: Text::from_str(alloc, found.specifier)?,
        specifier_range: PositionRange::from_source_range(found.specifier_range, text_info),
        is_side_effect: found.is_side_effect,
        import_attributes: found.import_attributes,
    })
}

/// Returns the dynamic dependency that a descriptor describes.
fn dynamic_dependency(
    alloc: Global,
    text_info: &SourceTextInfo,
    found: dep::DynamicDependencyDescriptor<'_>,
    read: &mut ReadTypes,
) -> Result<DynamicDependencyDescriptor, AllocError>
    requires fits { FitsText text_info.now (dynamic_descriptor (dynamic_descriptor_seen found)) }
    requires read { AreRead text_info.now read.old }
    ensures is { IfOk result (λ dependency.
        Describes text_info.now (dynamic_descriptor (dynamic_descriptor_seen found.entry)) (Dynamic dependency)) }
    ensures covers { IfOk result (λ dependency. CoversTypes text_info.now (Dynamic dependency)) }
    ensures read { OnOk result (AreRead text_info.now read.new) }
{
    Ok(DynamicDependencyDescriptor {
        kind: found.kind,
        types_specifier: types_before(alloc, text_info, found.leading_comments, read)?,
        argument: owned_argument(alloc, &found.argument)?,
        argument_range: PositionRange::from_source_range(found.argument_range, text_info),
        import_attributes: found.import_attributes,
    })
}

/// Returns a copy of an argument that owns its texts.
fn owned_argument(
    alloc: Global,
    argument: &dep::DynamicArgument<'_>,
) -> Result<DynamicArgument, AllocError>
    ensures { IfOk result (λ owned. owned ≡ argument_of_form (form_seen argument.now)) }
{
    match argument {
        dep::DynamicArgument::String(text) => {
            Ok(DynamicArgument::String(Text::from_str(alloc, text)?))
        }
        dep::DynamicArgument::Template(parts) => {
            Ok(DynamicArgument::Template(owned_parts(alloc, parts)?))
        }
        dep::DynamicArgument::Expr => Ok(DynamicArgument::Expr),
    }
}

/// Returns copies of the parts of a template that own their texts.
fn owned_parts(
    alloc: Global,
    parts: &[dep::DynamicTemplatePart<'_>],
) -> Result<Items<DynamicTemplatePart>, AllocError>
    ensures { IfOk result (λ owned. owned ≡ map template_part_of (map part_seen parts.now)) }
{
    let mut owned = Items::with_capacity(alloc, parts.len())?;
    for part in parts {
        owned.push(owned_part(alloc, part)?)?;
    }
    Ok(owned)
}

/// Returns a copy of a part of a template that owns its text.
fn owned_part(
    alloc: Global,
    part: &dep::DynamicTemplatePart<'_>,
) -> Result<DynamicTemplatePart, AllocError>
    ensures { IfOk result (λ owned. owned ≡ template_part_of (part_seen part.now)) }
{
    match part {
        dep::DynamicTemplatePart::String(text) => Ok(DynamicTemplatePart::String {
            value: Text::from_str(alloc, text)?,
        }),
        dep::DynamicTemplatePart::Expr => Ok(DynamicTemplatePart::Expr),
    }
}
