ghost use Rattle.std.specs.Prelude.{◌≡◌, ◌+◌, ◌≤◌, ◌++◌, length};
ghost use Rattle.records.specs.Writing.{command_of, room_for, laid};

// Lays three parts into lent memory, one behind another from its start, if there is room for all.
pub(crate) fn lay_parts(head: &[u8], body: &[u8], tail: &[u8], out: &mut [u8]) -> Option<usize>
    requires { length head.now + length body.now + length tail.now ≤ 137 }
    ensures count { result ≡ room_for (head.now ++ (body.now ++ tail.now)) out.old }
    ensures bytes { out.new ≡ laid (head.now ++ (body.now ++ tail.now)) out.old }
{
    let before_tail = head.len() + body.len();
    let end = before_tail + tail.len();
    if out.len() < end {
        return None;
    }
    out[..head.len()].copy_from_slice(head);
    out[head.len()..before_tail].copy_from_slice(body);
    out[before_tail..end].copy_from_slice(tail);
    Some(end)
}

// Lays a command: what stands before its body, the body, and the check word.
#[tactic(auto, using(crate::proofs::Laying::word_kept))]
pub(crate) fn lay_command(head: &[u8], body: &[u8], check: u16, out: &mut [u8]) -> Option<usize>
    requires { length head.now + length body.now ≤ 135 }
    ensures count { result ≡ room_for (command_of head.now body.now check) out.old }
    ensures bytes { out.new ≡ laid (command_of head.now body.now check) out.old }
{
    lay_parts(head, body, &check.to_be_bytes(), out)
}
