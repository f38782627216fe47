//! The colours, patterns and signs of a picture: the same text in each.
//!
//! The picture has a ground of its own, light or dark as the reader's screen asks, so it can stand on any page.

/// The head of a picture, behind its front.
pub(crate) const HEAD: &[u8] = b"\
<style>
svg{font:9px 'DejaVu Sans Mono',Menlo,Consolas,monospace}text{fill:#1c1f23}use,.m{pointer-events:none}
.bg{fill:#fff}.lane{fill:#f1f3f6}.hit{fill:#000;opacity:0}.hit:hover{opacity:.08}.dim{fill:#6b737c}.bad{fill:#b3111c}.good{fill:#1b7f3b}.in{fill:#fff}
.n{font-size:15px;font-weight:bold}.pass{fill:#d5dff0;opacity:.6}.grid{fill:#aab4c2}.shared{fill:url(#shared)}
.down{fill:#4a4f55;opacity:.5}.idle{fill:#8b9096;opacity:.25}.ok{fill:#bfe3c8}.no{fill:#f3c0c0}.open{fill:#d9dce0}
.read{fill:#9aa3ad}.write{fill:#3b4148}.air{fill:#9aa3ad;opacity:.6}.late{fill:#e8871e}
.joining{fill:#c3d7e6}.joined{fill:#6f9fc4}.left{fill:#b9b2c9}.failing{fill:#d62828}.gap{fill:#9aa3ad;opacity:.7}.wanted{fill:#b3111c;opacity:.7}
.r0{fill:#3f6fa8}.r1{fill:#2f8a4e}.r2{fill:#9c3a78}.r3{fill:#a5761d}.r4{fill:#4b8f9c}.r5{fill:#7a5bb0}.r6{fill:#b0563c}.r7{fill:#5f6b2f}
.reset{fill:#b3111c}.crash{fill:#e8871e}.up{fill:#1b7f3b}
@media (prefers-color-scheme:dark){text{fill:#e4e7ea}.bg{fill:#15181b}.lane{fill:#1f2327}.hit{fill:#fff}.dim{fill:#98a1ab}.bad{fill:#ff7b7b}.good{fill:#62d28c}
.pass{fill:#324158}.grid{fill:#4d5866}.down{fill:#000;opacity:.6}.ok{fill:#23553a}.no{fill:#6d2d2d}.open{fill:#454b52}.write{fill:#dfe3e8}.joining{fill:#36536b}}
</style>
<defs>
<pattern id='shared' width='6' height='6' patternUnits='userSpaceOnUse' patternTransform='rotate(45)'><rect width='3' height='6' fill='#fff' opacity='.32'/></pattern>
<circle id='held' r='2' class='good'/>
<circle id='failed' r='4' class='failing'/>
<path id='torn' d='M-4 0l8 8m0-8l-8 8' stroke='#d62828' stroke-width='2'/>
<path id='dropped' d='M-4 4h8' stroke='#6b737c' stroke-width='2'/>
<path id='term' d='M0 0l5 6h-10z' class='crash'/>
<path id='kill' d='M0 0l5 6h-10z' class='reset'/>
<path id='note' d='M0 6l-3-6h6z' class='dim'/>
</defs>
";

/// The end of a picture.
pub(crate) const TAIL: &[u8] = b"</svg>\n";
