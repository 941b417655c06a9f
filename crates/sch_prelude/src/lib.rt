//! The library: the procedures of R5RS chapter 6, as Scheme text.
#![tactic(auto)]

ghost use Rattle.std.specs.Prelude.{◌≡◌, ◌≤◌, ◌^◌, length};
ghost use Rattle.sch_prelude.specs.LibraryText.{library_text};

/// The library's text. Each of its items defines a procedure, which names itself and earlier ones alone.
///
/// In it the head of a list is a primitive where the name is one and this number of operands is admitted, also where the
/// library has a procedure of that name. What begins with `%` is the library's own, and no program sees it.
pub const LIBRARY: &[u8] = br##"
; The primitives as procedures. Each calls the primitive of its own name.
(define (eq? a b) (eq? a b))
(define (eqv? a b) (eqv? a b))
(define (boolean? a) (boolean? a))
(define (pair? a) (pair? a))
(define (null? a) (null? a))
(define (symbol? a) (symbol? a))
(define (integer? a) (integer? a))
(define (char? a) (char? a))
(define (string? a) (string? a))
(define (vector? a) (vector? a))
(define (procedure? a) (procedure? a))
(define (cons a b) (cons a b))
(define (car a) (car a))
(define (cdr a) (cdr a))
(define (set-car! a b) (set-car! a b))
(define (set-cdr! a b) (set-cdr! a b))
(define (quotient a b) (quotient a b))
(define (remainder a b) (remainder a b))
(define (modulo a b) (modulo a b))
(define (char->integer a) (char->integer a))
(define (integer->char a) (integer->char a))
(define (string-length a) (string-length a))
(define (string-ref a b) (string-ref a b))
(define (string-set! a b c) (string-set! a b c))
(define (vector-length a) (vector-length a))
(define (vector-ref a b) (vector-ref a b))
(define (vector-set! a b c) (vector-set! a b c))

; `not` (R5RS 6.3.1).
(define (not a) (if a #f #t))

; Compositions of `car` and `cdr` (R5RS 6.3.2).
(define (caar a) (car (car a)))
(define (cadr a) (car (cdr a)))
(define (cdar a) (cdr (car a)))
(define (cddr a) (cdr (cdr a)))
(define (caaar a) (car (car (car a))))
(define (caadr a) (car (car (cdr a))))
(define (cadar a) (car (cdr (car a))))
(define (caddr a) (car (cdr (cdr a))))
(define (cdaar a) (cdr (car (car a))))
(define (cdadr a) (cdr (car (cdr a))))
(define (cddar a) (cdr (cdr (car a))))
(define (cdddr a) (cdr (cdr (cdr a))))
(define (caaaar a) (car (car (car (car a)))))
(define (caaadr a) (car (car (car (cdr a)))))
(define (caadar a) (car (car (cdr (car a)))))
(define (caaddr a) (car (car (cdr (cdr a)))))
(define (cadaar a) (car (cdr (car (car a)))))
(define (cadadr a) (car (cdr (car (cdr a)))))
(define (caddar a) (car (cdr (cdr (car a)))))
(define (cadddr a) (car (cdr (cdr (cdr a)))))
(define (cdaaar a) (cdr (car (car (car a)))))
(define (cdaadr a) (cdr (car (car (cdr a)))))
(define (cdadar a) (cdr (car (cdr (car a)))))
(define (cdaddr a) (cdr (car (cdr (cdr a)))))
(define (cddaar a) (cdr (cdr (car (car a)))))
(define (cddadr a) (cdr (cdr (car (cdr a)))))
(define (cdddar a) (cdr (cdr (cdr (car a)))))
(define (cddddr a) (cdr (cdr (cdr (cdr a)))))

; Stops. `(%none 0)` is a call with a wrong number of arguments, and `(%range)` an index that is out of range.
(define (%none) 0)
(define (%range) (vector-ref '#() 0))

; Arithmetic of any number of operands (R5RS 6.2.5). Two at a time are the primitives.
(define (%plus s l) (if (null? l) s (%plus (+ s (car l)) (cdr l))))
(define (+ . l) (%plus 0 l))
(define (%times s l) (if (null? l) s (%times (* s (car l)) (cdr l))))
(define (* . l) (%times 1 l))
(define (%minus s l) (if (null? l) s (%minus (- s (car l)) (cdr l))))
(define (- a . l) (if (null? l) (- 0 a) (%minus a l)))
(define (%= a l) (if (null? l) #t (if (= a (car l)) (%= (car l) (cdr l)) #f)))
(define (= a b . l) (if (= a b) (%= b l) #f))
(define (%< a l) (if (null? l) #t (if (< a (car l)) (%< (car l) (cdr l)) #f)))
(define (< a b . l) (if (< a b) (%< b l) #f))
(define (%> a l) (if (null? l) #t (if (> a (car l)) (%> (car l) (cdr l)) #f)))
(define (> a b . l) (if (> a b) (%> b l) #f))
(define (%<= a l) (if (null? l) #t (if (<= a (car l)) (%<= (car l) (cdr l)) #f)))
(define (<= a b . l) (if (<= a b) (%<= b l) #f))
(define (%>= a l) (if (null? l) #t (if (>= a (car l)) (%>= (car l) (cdr l)) #f)))
(define (>= a b . l) (if (>= a b) (%>= b l) #f))

; A vector or a string with or without what fills it (R5RS 6.3.5, 6.3.6).
(define (make-vector n . l) (if (null? l) (make-vector n)
  (if (null? (cdr l)) (make-vector n (car l)) (%none 0))))
(define (make-string n . l) (if (null? l) (make-string n)
  (if (null? (cdr l)) (make-string n (car l)) (%none 0))))

; Numbers (R5RS 6.2.5). All of them are exact integers.
(define (number? a) (integer? a))
(define (complex? a) (integer? a))
(define (real? a) (integer? a))
(define (rational? a) (integer? a))
(define (exact? a) (+ a 0) #t)
(define (inexact? a) (+ a 0) #f)
(define (zero? a) (= a 0))
(define (positive? a) (> a 0))
(define (negative? a) (< a 0))
(define (odd? a) (if (= (remainder a 2) 0) #f #t))
(define (even? a) (= (remainder a 2) 0))
(define (abs a) (if (< a 0) (- 0 a) a))
(define (%max a l) (if (null? l) (+ a 0) (%max (if (< a (car l)) (car l) a) (cdr l))))
(define (max a . l) (%max a l))
(define (%min a l) (if (null? l) (+ a 0) (%min (if (> a (car l)) (car l) a) (cdr l))))
(define (min a . l) (%min a l))
(define (%gcd a b) (if (= b 0) (abs a) (%gcd b (remainder a b))))
(define (%gcds a l) (if (null? l) (abs a) (%gcds (%gcd a (car l)) (cdr l))))
(define (gcd . l) (if (null? l) 0 (%gcds (car l) (cdr l))))
(define (%lcm a b) (if (= a 0) a (if (= b 0) b (abs (* (quotient a (%gcd a b)) b)))))
(define (%lcms a l) (if (null? l) (abs a) (%lcms (%lcm a (car l)) (cdr l))))
(define (lcm . l) (%lcms 1 l))
(define (%expt b n s) (if (= n 0) s (%expt b (- n 1) (* s b))))
(define (expt b n) (if (< n 0) (%range) (%expt b n 1)))

; Lists (R5RS 6.3.2). `list?` goes with a slow and a fast walker, so that it ends on a cycle.
(define (list . l) l)
(define (%list? a b) (if (pair? a) (let ((a (cdr a)))
  (if (pair? a) (let ((a (cdr a)) (b (cdr b))) (if (eq? a b) #f (%list? a b))) (null? a))) (null? a)))
(define (list? a) (%list? a a))
(define (%length a n) (if (null? a) n (%length (cdr a) (+ n 1))))
(define (length a) (%length a 0))
(define (%onto a b) (if (null? a) b (%onto (cdr a) (cons (car a) b))))
(define (reverse a) (%onto a '()))
(define (%copy a p b) (if (null? a) (set-cdr! p b)
  (let ((q (cons (car a) '()))) (set-cdr! p q) (%copy (cdr a) q b))))
(define (%append a b) (if (null? a) b (let ((p (cons (car a) '()))) (%copy (cdr a) p b) p)))
(define (%appends a l) (if (null? l) a (%append a (%appends (car l) (cdr l)))))
(define (append . l) (if (null? l) '() (%appends (car l) (cdr l))))
(define (list-tail a n) (if (= n 0) a (list-tail (cdr a) (- n 1))))
(define (list-ref a n) (car (list-tail a n)))

; Comparisons of strings (R5RS 6.3.5).
(define (%string=? a b n) (if (= n 0) #t
  (if (eqv? (string-ref a (- n 1)) (string-ref b (- n 1))) (%string=? a b (- n 1)) #f)))
(define (string=? a b) (if (= (string-length a) (string-length b)) (%string=? a b (string-length a)) #f))
(define (%string<? a b i m n) (if (= i n) #f (if (= i m) #t
  (let ((c (char->integer (string-ref a i))) (d (char->integer (string-ref b i))))
    (if (< c d) #t (if (= c d) (%string<? a b (+ i 1) m n) #f))))))
(define (string<? a b) (%string<? a b 0 (string-length a) (string-length b)))
(define (string>? a b) (string<? b a))
(define (string<=? a b) (if (string<? b a) #f #t))
(define (string>=? a b) (if (string<? a b) #f #t))

; Equivalence, and what is found by it in lists (R5RS 6.1, 6.3.2).
(define (%vector=? f a b n) (if (= n 0) #t
  (if (f (vector-ref a (- n 1)) (vector-ref b (- n 1))) (%vector=? f a b (- n 1)) #f)))
(define (equal? a b) (cond ((eqv? a b) #t)
  ((pair? a) (if (pair? b) (if (equal? (car a) (car b)) (equal? (cdr a) (cdr b)) #f) #f))
  ((string? a) (if (string? b) (string=? a b) #f))
  ((vector? a) (if (vector? b) (if (= (vector-length a) (vector-length b))
    (%vector=? equal? a b (vector-length a)) #f) #f))
  (else #f)))
(define (memv a l) (if (null? l) #f (if (eqv? a (car l)) l (memv a (cdr l)))))
(define (memq a l) (memv a l))
(define (member a l) (if (null? l) #f (if (equal? a (car l)) l (member a (cdr l)))))
(define (assv a l) (if (null? l) #f (if (eqv? a (car (car l))) (car l) (assv a (cdr l)))))
(define (assq a l) (assv a l))
(define (assoc a l) (if (null? l) #f (if (equal? a (car (car l))) (car l) (assoc a (cdr l)))))

; One or two lists, element by element (R5RS 6.4).
(define (%map1 f a p) (if (null? a) #f
  (let ((q (cons (f (car a)) '()))) (set-cdr! p q) (%map1 f (cdr a) q))))
(define (%map2 f a b p) (if (null? a) #f
  (let ((q (cons (f (car a) (car b)) '()))) (set-cdr! p q) (%map2 f (cdr a) (cdr b) q))))
(define (map f a . l) (let ((p (cons #f '())))
  (if (null? l) (%map1 f a p) (if (null? (cdr l)) (%map2 f a (car l) p) (%none 0))) (cdr p)))
(define (%each1 f a) (if (null? a) #f (begin (f (car a)) (%each1 f (cdr a)))))
(define (%each2 f a b) (if (null? a) #f (begin (f (car a) (car b)) (%each2 f (cdr a) (cdr b)))))
(define (for-each f a . l)
  (if (null? l) (%each1 f a) (if (null? (cdr l)) (%each2 f a (car l)) (%none 0))))

; Characters (R5RS 6.3.4). Letters and digits are those of ASCII.
(define (char=? a b) (= (char->integer a) (char->integer b)))
(define (char<? a b) (< (char->integer a) (char->integer b)))
(define (char>? a b) (> (char->integer a) (char->integer b)))
(define (char<=? a b) (<= (char->integer a) (char->integer b)))
(define (char>=? a b) (>= (char->integer a) (char->integer b)))
(define (%within a i j) (let ((n (char->integer a))) (if (< n i) #f (< n j))))
(define (char-upper-case? a) (%within a 65 91))
(define (char-lower-case? a) (%within a 97 123))
(define (char-alphabetic? a) (if (%within a 65 91) #t (%within a 97 123)))
(define (char-numeric? a) (%within a 48 58))
(define (char-whitespace? a) (if (memv (char->integer a) '(9 10 12 13 32)) #t #f))
(define (char-upcase a) (if (%within a 97 123) (integer->char (- (char->integer a) 32)) a))
(define (char-downcase a) (if (%within a 65 91) (integer->char (+ (char->integer a) 32)) a))

; Strings, and lists of characters (R5RS 6.3.5).
(define (%chars s i l) (if (null? l) s (begin (string-set! s i (car l)) (%chars s (+ i 1) (cdr l)))))
(define (list->string l) (%chars (make-string (length l)) 0 l))
(define (string . l) (list->string l))
(define (%move s i t j n) (if (= n 0) t
  (begin (string-set! t j (string-ref s i)) (%move s (+ i 1) t (+ j 1) (- n 1)))))
(define (substring s i j) (%move s i (make-string (- j i)) 0 (- j i)))
(define (string-copy s) (substring s 0 (string-length s)))
(define (%total l n) (if (null? l) n (%total (cdr l) (+ n (string-length (car l))))))
(define (%join l t j) (if (null? l) t (begin (%move (car l) 0 t j (string-length (car l)))
  (%join (cdr l) t (+ j (string-length (car l)))))))
(define (string-append . l) (%join l (make-string (%total l 0)) 0))
(define (%slist s i l) (if (= i 0) l (%slist s (- i 1) (cons (string-ref s (- i 1)) l))))
(define (string->list s) (%slist s (string-length s) '()))
(define (%sfill s c i) (if (= i 0) s (begin (string-set! s (- i 1) c) (%sfill s c (- i 1)))))
(define (string-fill! s c) (%sfill s c (string-length s)))

; The name of a symbol (R5RS 6.3.3).
(define (%name a s i) (if (= i 0) s
  (begin (string-set! s (- i 1) (%symbol-ref a (- i 1))) (%name a s (- i 1)))))
(define (symbol->string a) (%name a (make-string (%symbol-length a)) (%symbol-length a)))

; Vectors, and lists (R5RS 6.3.6).
(define (%items v i l) (if (null? l) v (begin (vector-set! v i (car l)) (%items v (+ i 1) (cdr l)))))
(define (list->vector l) (%items (make-vector (length l)) 0 l))
(define (vector . l) (list->vector l))
(define (%vlist v i l) (if (= i 0) l (%vlist v (- i 1) (cons (vector-ref v (- i 1)) l))))
(define (vector->list v) (%vlist v (vector-length v) '()))
(define (%vfill v x i) (if (= i 0) v (begin (vector-set! v (- i 1) x) (%vfill v x (- i 1)))))
(define (vector-fill! v x) (%vfill v x (vector-length v)))

; Numbers and their decimal digits (R5RS 6.2.6). Digits are taken from negative numbers, of which there is one more.
(define (%digits n l) (let ((l (cons (integer->char (- 48 (remainder n 10))) l)))
  (if (> n -10) l (%digits (quotient n 10) l))))
(define (number->string n)
  (list->string (if (< n 0) (cons #\- (%digits n '())) (%digits (- 0 n) '()))))
(define (%digits? s i n) (if (= i n) #t (if (char-numeric? (string-ref s i)) (%digits? s (+ i 1) n) #f)))
(define (%value s i n v) (if (= i n) v
  (%value s (+ i 1) n (- (* v 10) (- (char->integer (string-ref s i)) 48)))))
(define (%number s i n p) (if (= i n) #f (if (%digits? s i n)
  (let ((v (%value s i n 0))) (if p (- 0 v) v)) #f)))
(define (string->number s) (let ((n (string-length s))) (if (= n 0) #f
  (let ((c (string-ref s 0))) (if (eqv? c #\-) (%number s 1 n #f)
    (if (eqv? c #\+) (%number s 1 n #t) (%number s 0 n #t)))))))

; Output (R5RS 6.6.3). `%put` writes one piece.
(define (newline) (%put #\newline))
(define (write-char c) (char->integer c) (%put c))
(define (%plist f a) (f (car a)) (let ((a (cdr a))) (if (pair? a) (begin (%put " ") (%plist f a))
  (begin (if (null? a) #f (begin (%put " . ") (f a))) (%put ")")))))
(define (%pvector f v i) (if (= i (vector-length v)) (%put ")")
  (begin (if (= i 0) #f (%put " ")) (f (vector-ref v i)) (%pvector f v (+ i 1)))))
(define (display a) (cond ((pair? a) (%put "(") (%plist display a))
  ((vector? a) (%put "#(") (%pvector display a 0)) (else (%put a))))
(define (%pstring s i n) (if (= i n) (%put "\"") (let ((c (string-ref s i)))
  (if (or (eqv? c #\") (eqv? c #\\)) (%put "\\")) (%put c) (%pstring s (+ i 1) n))))
(define (write a) (cond ((pair? a) (%put "(") (%plist write a))
  ((vector? a) (%put "#(") (%pvector write a 0))
  ((string? a) (%put "\"") (%pstring a 0 (string-length a)))
  ((char? a) (%put "#\\") (cond ((eqv? a #\space) (%put "space"))
    ((eqv? a #\newline) (%put "newline")) (else (%put a))))
  (else (%put a))))
"##;

/// The text of the library that programs are compiled with.
#[tactic(auto, unfolding(crate::specs::LibraryText::library_text))]
pub fn library_text() -> &'static [u8]
    ensures is { result.now ≡ library_text }
    // It is no longer than a source may be.
    ensures short { length library_text ≤ 2 ^ 20 }
{
    LIBRARY
}
