//! Laws of offsets, tokens and comments, each as the contract of a function that does nothing.

ghost use Rattle.std.specs.Prelude.{◌≡◌, ◌≢◌, ◌<◌, ◌≤◌, ◌++◌, ℕ, List, length, Some};
ghost use Rattle.std.specs.Str.{IsUtf8};
ghost use Rattle.deno_graph_base.specs.declared.text.position.SourceRange.{SourceRange};
ghost use Rattle.deno_graph_source.specs.Source.{IsSpelled};
ghost use Rattle.deno_graph_source.specs.declared.tree.comments.DependencyComment.{DependencyComment};
ghost use Rattle.modinfo_estree.specs.CommentError.{IsCommentError};
ghost use Rattle.modinfo_estree.specs.Comments.{IsWhole, comment_at_range};
ghost use Rattle.modinfo_estree.specs.Offsets.{byte_offset, unit_sizes};
ghost use Rattle.modinfo_estree.specs.Tokens.{breaks, gaps};
ghost use Rattle.modinfo_estree.specs.declared.comment_error.CommentError.{CommentError};
ghost use Rattle.modinfo_estree.specs.declared.comment_error.CommentError.TheVariants.{OutOfMemory};

/// A larger number of UTF-16 units, up to that of the text, has a larger offset in bytes.
pub fn byte_offsets_ascend()
    ensures { (text : List ℕ) → (first second : ℕ) → first < second
        → second ≤ length (unit_sizes text) → byte_offset text first < byte_offset text second }
{}

/// In a text that begins with `front`, the offset after as many UTF-16 units as `front` has is the length of
/// `front` in bytes.
pub fn boundaries_are_counted()
    ensures { (front rest : List ℕ) → IsUtf8 front
        → byte_offset (front ++ rest) (length (unit_sizes front)) ≡ length front }
{}

/// Each byte of a text is marked as between tokens or not, and as of a line terminator or not.
pub fn each_byte_is_marked()
    ensures between { (text : List ℕ) → (comments : List SourceRange) → IsUtf8 text
        → length (gaps text comments) ≡ length text }
    ensures lines { (text : List ℕ) → IsUtf8 text → length (breaks text) ≡ length text }
{}

/// A comment that the text has at the range of the comment is read with its kind and its text, if the range
/// goes as far as the comment does.
pub fn each_comment_is_read()
    ensures { (text : List ℕ) → (comment : DependencyComment) → IsSpelled text comment
        → IsWhole text comment → comment_at_range text comment.range ≡ comment }
{}

/// The comment that is filed for a range with an error isn't one that the text has there. So the source has the
/// fault `CommentText`.
pub fn no_error_is_a_comment()
    ensures { (text : List ℕ) → (range : SourceRange) → (error : CommentError) → error ≢ OutOfMemory
        → IsCommentError text range error → ¬ IsSpelled text (comment_at_range text range) }
{}
