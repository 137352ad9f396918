/// The generated system, in which each line with the word `ri` or `ci` stands once for each `i`
/// from 0 to n - 1, and the words `ri`, `ci`, `rj` and `cz` stand for names with a number.
pub const SYSTEM: &[u8] = b"system 1;
event Tok(hops);
event Swap();
port Ring { plus Tok; }
port Cmd { minus Swap; }
component Relay {
  requires left : Ring;
  provides right : Ring;
  var seen = 0;
  on Tok at left as pass { seen = seen + 1; if it.hops > 0 { trigger Tok(it.hops - 1) at right; } }
}
component Main {
  requires feed : Ring;
  provides cmd : Cmd;
  var here = 0;
  slot ri : Relay();
  slot spare;
  channel ci : Ring from ri.right to rj.left;
  channel inlet : Ring from self.feed to r0.left;
  on Swap at cmd as go {
    hold inlet; hold cz; hold c0;
    if here == 0 { stop r0; dump r0; } else { stop spare; dump spare; }
  }
  on dumped(s) as over {
    unplug inlet.minus; unplug cz.minus; unplug c0.plus;
    if here == 0 {
      create spare : Relay from state;
      plug inlet.minus at spare.left; plug cz.minus at spare.left; plug c0.plus at spare.right;
      start spare; destroy r0; here = 1;
    } else {
      create r0 : Relay from state;
      plug inlet.minus at r0.left; plug cz.minus at r0.left; plug c0.plus at r0.right;
      start r0; destroy spare; here = 0;
    }
    resume inlet; resume cz; resume c0;
  }
}
root Main();
";

/// The generated scenario, in which the words S, T and U stand for numbers.
pub const SCENARIO: &[u8] = b"scenario 1;
seed S;
process tokens at 0 { count T; gap 1 1; raise Tok(20) at feed; }
process swaps at 10 { count U; gap 10 10; raise Swap() at cmd; }
";
