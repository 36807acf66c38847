/// How the parts of a chart look, in light and in dark surroundings. Kinds of messages differ by their strokes, not by
/// colour alone.
pub const STYLE: &str = "\
.page{fill:#ffffff}
text{font:11px monospace;fill:#1a1a1a;paint-order:stroke;stroke:#ffffff;stroke-width:4px;stroke-linejoin:round}
.life{stroke:#9a9a9a;stroke-width:1}
.guide{stroke:#e2e2e2;stroke-width:1}
.number{fill:#6b6b6b}
.plate{fill:#e9e9e9;stroke:#1a1a1a;stroke-width:1}
.title{font-weight:bold;stroke:#e9e9e9}
.wire{fill:none;stroke-width:1.4}
.rim{fill:none;stroke:#ffffff;stroke-width:6}
.request .wire{stroke:#1b57b3}
.forward .wire{stroke:#a24300;stroke-dasharray:6 3}
.response .wire{stroke:#17703a;stroke-width:3}
.request .head{fill:#1b57b3;stroke:#1b57b3}
.forward .head{fill:#a24300;stroke:#a24300}
.response .head{fill:#17703a;stroke:#17703a}
.request .tail{fill:#1b57b3}
.forward .tail{fill:#a24300}
.response .tail{fill:#17703a}
.unserved .head{fill:#ffffff}
.mark{font-weight:bold}
.ask,.met{font-style:italic}
.box,.dot,.tried,.loaded{fill:#ffffff;stroke:#1a1a1a;stroke-width:1}
.dot,.stored{fill:#1a1a1a}
.of-home{fill:#e9e9e9}
.state.at-home{stroke:#e9e9e9}
.b0 .box{fill:#dbe9ff}
.state.b0{stroke:#dbe9ff}
.b1 .box{fill:#ffe6cc}
.state.b1{stroke:#ffe6cc}
.b2 .box{fill:#d9f2dd}
.state.b2{stroke:#d9f2dd}
.b3 .box{fill:#f3dcf7}
.state.b3{stroke:#f3dcf7}
.b4 .box{fill:#fff3bf}
.state.b4{stroke:#fff3bf}
.b5 .box{fill:#d5f1f5}
.state.b5{stroke:#d5f1f5}
.named{fill:none;stroke:#b00020;stroke-width:2}
.band{fill:#ffd6d6;stroke:#b00020;stroke-width:1}
.why{fill:#b00020;font-weight:bold;stroke:#ffd6d6}
.told-band{fill:#f0f0f0;stroke:#1a1a1a;stroke-width:1;stroke-dasharray:2 2}
.told{stroke:#f0f0f0}
.stuck-band{fill:#f0f0f0;stroke:#1a1a1a;stroke-width:1;stroke-dasharray:6 3}
.stuck{font-weight:bold;stroke:#f0f0f0}
.changed,.unserved .changed{stroke:#7a1fa2;stroke-width:3}
@media (prefers-color-scheme:dark){
.page{fill:#16181c}
text{fill:#e6e6e6;stroke:#16181c}
.life{stroke:#7a7f87}
.guide{stroke:#2c3036}
.number{fill:#9aa0a8}
.plate,.of-home{fill:#30343b;stroke:#e6e6e6}
.title{stroke:#30343b}
.request .wire{stroke:#7fb0ff}
.forward .wire{stroke:#ffb070}
.response .wire{stroke:#74d99a}
.request .head{fill:#7fb0ff;stroke:#7fb0ff}
.forward .head{fill:#ffb070;stroke:#ffb070}
.response .head{fill:#74d99a;stroke:#74d99a}
.request .tail{fill:#7fb0ff}
.forward .tail{fill:#ffb070}
.response .tail{fill:#74d99a}
.rim{stroke:#16181c}
.unserved .head{fill:#16181c}
.box,.tried,.loaded{fill:#16181c;stroke:#e6e6e6}
.box.of-home{fill:#30343b}
.state.at-home{stroke:#30343b}
.b0 .box{fill:#1d3557}
.state.b0{stroke:#1d3557}
.b1 .box{fill:#52360f}
.state.b1{stroke:#52360f}
.b2 .box{fill:#1e4429}
.state.b2{stroke:#1e4429}
.b3 .box{fill:#45254d}
.state.b3{stroke:#45254d}
.b4 .box{fill:#4d4411}
.state.b4{stroke:#4d4411}
.b5 .box{fill:#17434a}
.state.b5{stroke:#17434a}
.named{stroke:#ff8a95}
.dot,.stored{fill:#e6e6e6;stroke:#e6e6e6}
.band{fill:#5c1620;stroke:#ff8a95}
.why{fill:#ffb3ba;stroke:#5c1620}
.told-band{fill:#2a2d33;stroke:#e6e6e6}
.told{stroke:#2a2d33}
.stuck-band{fill:#2a2d33;stroke:#e6e6e6}
.stuck{stroke:#2a2d33}
.changed,.unserved .changed{stroke:#d9a6ff}
}
";
