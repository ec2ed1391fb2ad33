#![tactic(auto, unfolding(crate::proofs::Unfolded::node_meaning))]

ghost use Rattle.std.specs.Prelude.{◌≡◌, ◌≤◌, false, IfOk, IsTrue, MatchOption, All};
ghost use Rattle.std.specs.Option.{option_copied, option_map};
ghost use Rattle.deno_graph_base.specs.JsString.{lossy_text};
ghost use Rattle.deno_graph_info.specs.declared.analysis.static_dependency.StaticDependencyKind.TheVariants.{ImportType, MaybeTsModuleAugmentation};
ghost use Rattle.deno_graph_source.specs.Node.{callee_count, children_of, nodes_in, range_of, IsShaped};
ghost use Rattle.deno_graph_dep.specs.Argument.{form_seen};
ghost use Rattle.deno_graph_dep.specs.Attributes.{AreDeclarationAttributes};
ghost use Rattle.deno_graph_dep.specs.internal.CallSteps.{IsNoModuleCall};
ghost use Rattle.deno_graph_dep.specs.DependencyRules.{is_dependency, may_name_module};
ghost use Rattle.deno_graph_dep.specs.Descriptor.{descriptor_seen, static_descriptor, static_descriptor_seen};
ghost use Rattle.deno_graph_dep.specs.DescriptorOf.{argument_at, specified_descriptor, with_clause, ArgumentHasForm, AreNoAttributes, IsDescriptorOf, IsDynamicDescriptorOf, IsStaticDescriptorOf, AreTypeAttributes};

use crate::argument::{DynamicArgument, argument_of};
use crate::attributes::{
    parse_dynamic_import_attributes, parse_import_attributes,
    parse_import_attributes_from_object_lit,
};
use crate::dependency_kind::{call_kind, export_kind, import_equals_kind, import_kind};
use crate::descriptor::{
    DependencyDescriptor, DynamicDependencyDescriptor, StaticDependencyDescriptor,
};
use crate::is_dependency::may_name_module;
use deno_graph_info::analysis::{ImportAttributes, StaticDependencyKind};
use deno_graph_source::tree::{Arg, Callee, Comments, Kind, Node, StrLit};
use std::alloc::{AllocError, Global};

/// Returns the descriptor of a node, or `None` where the node is no dependency. Fails only if
/// an allocation fails.
pub(crate) fn descriptor_of<'a>(
    alloc: Global,
    comments: &'a Comments,
    node: &'a Node,
) -> Result<Option<DependencyDescriptor<'a>>, AllocError>
    requires { All IsShaped (nodes_in node.now) }
    ensures { IfOk result (λ found. MatchOption found (is_dependency node.now ≡ false)
        (λ descriptor. IsDescriptorOf comments.now node.now (descriptor_seen descriptor))) }
{
    match &node.kind {
        Kind::ImportDecl {
            type_only,
            phase,
            src,
            has_specifiers,
            ..
        } => {
            let kind = import_kind(*type_only, *phase);
            Ok(Some(declaration(alloc, comments, node, kind, src, !*has_specifiers)?.into()))
        }
        Kind::NamedExport {
            type_only,
            src: Some(src),
            ..
        }
        | Kind::ExportAll { type_only, src, .. } => {
            let kind = export_kind(*type_only);
            Ok(Some(declaration(alloc, comments, node, kind, src, false)?.into()))
        }
        Kind::ImportEquals {
            type_only,
            is_export,
            external: Some(src),
        } => {
            let kind = import_equals_kind(*type_only, *is_export);
            Ok(Some(specified(comments, node, kind, src, ImportAttributes::None).into()))
        }
        Kind::ImportType { arg, .. } => Ok(Some(import_type(alloc, comments, node, arg)?.into())),
        Kind::ModuleDecl { name: Some(name) } => Ok(module_declaration(comments, node, name)),
        Kind::Call { callee, args } => call(alloc, comments, node, *callee, args.as_slice()),
        _ => Ok(None),
    }
}

/// Returns the descriptor of an import or export with this specifier.
fn declaration<'a>(
    alloc: Global,
    comments: &'a Comments,
    node: &'a Node,
    kind: StaticDependencyKind,
    specifier: &'a StrLit,
    is_side_effect: bool,
) -> Result<StaticDependencyDescriptor<'a>, AllocError>
    ensures { IfOk result (λ descriptor. IsStaticDescriptorOf comments.now node.now
        kind (range_of node.now) specifier.now is_side_effect
        (AreDeclarationAttributes (with_clause node.now))
        (static_descriptor (static_descriptor_seen descriptor))) }
{
    let import_attributes = parse_import_attributes(alloc, with_clause(node))?;
    let mut descriptor = specified(comments, node, kind, specifier, import_attributes);
    descriptor.is_side_effect = is_side_effect;
    Ok(descriptor)
}

/// Returns the descriptor of an import type with this specifier.
fn import_type<'a>(
    alloc: Global,
    comments: &'a Comments,
    node: &'a Node,
    specifier: &'a StrLit,
) -> Result<StaticDependencyDescriptor<'a>, AllocError>
    ensures { IfOk result (λ descriptor. IsStaticDescriptorOf comments.now node.now
        ImportType (range_of node.now) specifier.now false
        (AreTypeAttributes (with_clause node.now))
        (static_descriptor (static_descriptor_seen descriptor))) }
{
    let import_attributes = type_attributes(alloc, with_clause(node))?;
    let kind = StaticDependencyKind::ImportType;
    Ok(specified(comments, node, kind, specifier, import_attributes))
}

/// Returns the attributes of an import type. `clause` is the object literal of its `with` clause.
fn type_attributes(alloc: Global, clause: Option<&Node>) -> Result<ImportAttributes, AllocError>
    ensures { IfOk result (AreTypeAttributes (option_copied clause.entry)) }
{
    match clause {
        Some(object) => parse_import_attributes_from_object_lit(alloc, object),
        None => Ok(ImportAttributes::None),
    }
}

/// Returns the descriptor of a module declaration with this name, if it may be a module's.
fn module_declaration<'a>(
    comments: &'a Comments,
    node: &'a Node,
    name: &'a StrLit,
) -> Option<DependencyDescriptor<'a>>
    ensures { MatchOption result (may_name_module (lossy_text name.now.value) ≡ false)
        (λ descriptor. IsTrue (may_name_module (lossy_text name.now.value))
        × IsStaticDescriptorOf comments.now node.now
        MaybeTsModuleAugmentation name.now.range name.now false AreNoAttributes
        (descriptor_seen descriptor)) }
{
    if !may_name_module(name.value.to_str_lossy()) {
        return None;
    }
    let kind = StaticDependencyKind::MaybeTsModuleAugmentation;
    let mut descriptor = specified(comments, node, kind, name, ImportAttributes::None);
    descriptor.range = name.range;
    Some(descriptor.into())
}

/// Returns the descriptor of a node with a specifier, without side effect, and with the node's own
/// range.
fn specified<'a>(
    comments: &'a Comments,
    node: &'a Node,
    kind: StaticDependencyKind,
    specifier: &'a StrLit,
    import_attributes: ImportAttributes,
) -> StaticDependencyDescriptor<'a>
    ensures { static_descriptor_seen result
        ≡ specified_descriptor comments.now node.now kind (range_of node.now) specifier.now
        false import_attributes }
{
    StaticDependencyDescriptor {
        kind,
        leading_comments: comments.leading_comments(node.range.start),
        range: node.range,
        specifier: specifier.value.to_str_lossy(),
        specifier_range: specifier.range,
        is_side_effect: false,
        import_attributes,
    }
}

/// Returns the descriptor of a call, or `None` where the call is none of `import` or `require`, or
/// has no argument.
fn call<'a>(
    alloc: Global,
    comments: &'a Comments,
    node: &'a Node,
    callee: Callee,
    args: &'a [Arg],
) -> Result<Option<DependencyDescriptor<'a>>, AllocError>
    requires { All IsShaped (nodes_in node.now) }
    ensures { IfOk result (λ found. MatchOption found
        (IsNoModuleCall callee args.now (children_of node.now))
        (λ descriptor. IsDynamicDescriptorOf comments.now node.now callee args.now
        (descriptor_seen descriptor))) }
{
    let children = node.children.as_slice();
    let Some(kind) = call_kind(callee, children) else {
        return Ok(None);
    };
    let Some((arg, argument)) = first_argument(callee, args, children) else {
        return Ok(None);
    };
    let second = second_argument(callee, args, children);
    let descriptor = DynamicDependencyDescriptor {
        kind,
        leading_comments: comments.leading_comments(node.range.start),
        range: node.range,
        argument: argument_known(alloc, arg, argument)?,
        argument_range: arg.range,
        import_attributes: parse_dynamic_import_attributes(alloc, second)?,
    };
    Ok(Some(descriptor.into()))
}

/// Returns what is known of a first argument. Of a spread argument nothing is known.
fn argument_known<'a>(
    alloc: Global,
    arg: &Arg,
    argument: &'a Node,
) -> Result<DynamicArgument<'a>, AllocError>
    requires { All IsShaped (nodes_in argument.now) }
    ensures { IfOk result (λ known. ArgumentHasForm arg.now argument.now (form_seen known)) }
{
    if arg.spread {
        Ok(DynamicArgument::Expr)
    } else {
        argument_of(alloc, argument)
    }
}

/// Returns how many of a call's children are its callee.
fn callee_count(callee: Callee) -> usize
    ensures count { result ≡ callee_count callee }
    ensures small { result ≤ 1 }
{
    match callee {
        Callee::Expr => 1,
        _ => 0,
    }
}

/// Returns the first argument of a call and its node, where both are there.
fn first_argument<'a>(
    callee: Callee,
    args: &'a [Arg],
    children: &'a [Node],
) -> Option<(&'a Arg, &'a Node)>
    ensures { option_map (λ first. (first.0.now, first.1.now)) result
        ≡ argument_at callee args.now children.now 0 }
{
    let node = children.get(callee_count(callee));
    args.get(0).zip(node)
}

/// Returns the second argument of a call and its node, where both are there.
fn second_argument<'a>(
    callee: Callee,
    args: &'a [Arg],
    children: &'a [Node],
) -> Option<(&'a Arg, &'a Node)>
    ensures { option_map (λ second. (second.0.now, second.1.now)) result
        ≡ argument_at callee args.now children.now 1 }
{
    let node = children.get(callee_count(callee) + 1);
    args.get(1).zip(node)
}

/// Returns the object literal of a node's `with` clause, which is its first child.
fn with_clause(node: &Node) -> Option<&Node>
    ensures { option_copied result ≡ with_clause node.now }
{
    if node.kind.has_with() {
        node.children.as_slice().first()
    } else {
        None
    }
}
