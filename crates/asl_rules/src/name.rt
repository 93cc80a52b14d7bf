// Names, which are JSON texts (RFC 8259, section 7).
ghost use Rattle.std.specs.Prelude.{◌≡◌, ◌<◌, cond, [], List, ℕ, length, IfOk, IfErr};
ghost use Rattle.std.specs.Str.{IsUtf8};
ghost use Rattle.asl_rules.specs.declared.atom.Task.{Task};
ghost use Rattle.asl_rules.specs.private.Steps.{Asks, Context, between, argument, behind_name, of_task, noted, in_argument, opens_name, run};
ghost use Rattle.asl_rules.specs.private.Leads.{Leads};

use asl_json::Txt;
use asl_json_read::quoted_text;
use asl_json_scan::{Stop, after_byte, skip_spaces, syntax};
use std::alloc::Global;

/// A name, in front of which spaces may stand; how many bytes there are from its first quote on; and what follows it.
pub(crate) fn name(alloc: Global, bytes: &[u8]) -> Result<(Txt, usize, &[u8]), Stop>
    requires { IsUtf8 bytes.now }
    ensures run { (ts : List Task) (a : Asks) (k : Context)
        → ((left : ℕ) (j : Context) (c : ℕ) → in_argument a left j c ≡ opens_name a left j c)
        → Leads (λ x. run ts (between (behind_name ts x.0 a)) (cond (of_task a) (noted ts x.0 x.1 k) k) x.2.now) result
        (run ts (between (argument a)) k bytes.now) }
    ensures shorter { IfOk result (λ x. length x.2.now < length bytes.now) }
    ensures utf8 { IfOk result (λ x. IsUtf8 x.2.now) }
{
    let rest = skip_spaces(bytes);
    let Some(inside) = after_byte(rest, b'"') else {
        return Err(syntax(rest));
    };
    let (name, behind) = quoted_text(alloc, inside)?;
    Ok((name, rest.len(), behind))
}
