//! What always holds of what a station says.
ghost use Rattle.std.specs.Prelude.{◌≡◌, ◌<◌, ◌≤◌, ◌^◌, ◌++◌, ◌∷◌, ℕ, List, Some, codes, length};
ghost use Rattle.std.specs.List.{All};
ghost use Rattle.std.specs.Str.{byte};
ghost use Rattle.serve_texts.specs.Escape.{IsByte, IsPrintable, escaped, until_quote};
ghost use Rattle.httpdate.specs.declared.date.HttpDate.{HttpDate as Date};
ghost use Rattle.serve_texts.specs.Log.{log_line};
ghost use Rattle.serve_texts.specs.Player.{player_front};
ghost use Rattle.serve_texts.specs.Reply.{IsFieldLine, IsText, fresh, replied, reply_after, response_bytes};
ghost use Rattle.serve_texts.specs.Status.{status_front};
ghost use Rattle.serve_texts.specs.declared.player.TheConstants.{PLAYER_FRONT};
ghost use Rattle.serve_texts.specs.declared.reply.Reply.{Reply as ReplyOf};
ghost use Rattle.serve_texts.specs.declared.status.TheConstants.{STATUS_FRONT};

/// The constant lines of the responses.
pub fn fronts_are_these()
    ensures player { PLAYER_FRONT.now ≡ player_front }
    ensures status { STATUS_FRONT.now ≡ status_front }
{}

/// What others wrote is printable in a line of the log, so no line feed and no other control byte is in it; and a reader
/// finds it whole in its quotes, whatever it was.
pub fn parts_are_quoted()
    ensures printable { (text : List ℕ) → All IsByte text → All IsPrintable (escaped text) }
    ensures found { (text rest : List ℕ) → All IsByte text
        → until_quote (escaped text ++ byte "\"" ∷ rest) ≡ Some (escaped text, rest) }
{}

/// A line of the log is printable, but for the line feed at its end.
pub fn lines_are_printable()
    ensures { (address head : List ℕ) (date : Date) (reply : ReplyOf)
        → All IsByte address → All IsByte head → reply.content < 2 ^ 64
        → (text : List ℕ) × All IsPrintable text × (log_line address date head reply ≡ text ++ codes "\n") }
{}

/// Of a response, its status and the length of its content are found, however its bytes are cut. A response of a status
/// from 100 to 199 is passed over.
pub fn responses_are_read()
    ensures pieces { (reply : ReplyOf) (first more : List ℕ) → reply.content < 2 ^ 64
        → reply_after (reply_after reply first) more ≡ reply_after reply (first ++ more) }
    ensures whole { (status : ℕ) (reason : List ℕ) (fields : List (List ℕ)) (content : List ℕ)
        → 200 ≤ status → status < 1000 → All IsText reason → All IsFieldLine fields → length content < 2 ^ 64
        → reply_after fresh (response_bytes status reason fields content) ≡ replied status (length content) }
    ensures interim { (status : ℕ) (reason : List ℕ) (fields : List (List ℕ)) (more : List ℕ)
        → 100 ≤ status → status < 200 → All IsText reason → All IsFieldLine fields
        → reply_after fresh (response_bytes status reason fields more) ≡ reply_after fresh more }
{}
