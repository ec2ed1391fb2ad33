ghost use Rattle.std.specs.Prelude.{◌≡◌};
ghost use Rattle.deno_graph_module_info.specs.HeadTail.{head_comments, tail_comments};

use deno_graph_source::tree::{Comments, DependencyComment, Program};

/// Returns the comments before the first item. Of a program without items, returns the comments
/// after a shebang, or else those at the program's start.
pub(crate) fn head_comments<'a>(
    program: &Program,
    comments: &'a Comments,
) -> &'a [DependencyComment]
    ensures { result.now ≡ head_comments program.now comments.now }
{
    match program.body.first() {
        Some(item) => comments.leading_comments(item.range.start),
        None => {
            if program.has_shebang {
                tail_comments(program, comments)
            } else {
                comments.leading_comments(program.range.start)
            }
        }
    }
}

/// Returns the comments after the program's end.
pub(crate) fn tail_comments<'a>(
    program: &Program,
    comments: &'a Comments,
) -> &'a [DependencyComment]
    ensures { result.now ≡ tail_comments program.now comments.now }
{
    comments.get_trailing(program.range.end).unwrap_or(&[])
}
